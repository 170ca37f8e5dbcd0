// 128-EIA3: the IV, the start and the one-shot, and their strict forms. The rest is ZUC-128's. COUNT, bearer and direction stay three
// parameters, and a strict form a function of its own: so the crate's calls, the document and C's have them (01; request 2026-04).
ghost use Rattle.std.specs.Prelude.{◌≡◌};
ghost use Rattle.mac.specs.Calls.{once_outcome-EIA3, once_told, start_outcome-EIA3, strict_once_outcome-EIA3, strict_start_outcome-EIA3, tag_told};
ghost use Rattle.mac.specs.Reading.{tagged_of-128};
ghost use Rattle.standard.specs.Integrity.{IV-EIA3};

use super::{Mac128, begin_from};
use refusals::Refusal;
use words::fields_fit;

// The IV. A bearer keeps its low 5 bits, a direction its low bit.
fn iv(count: u32, bearer: u8, direction: u8) -> [u8; 16]
    ensures { result ≡ IV-EIA3 count bearer direction }
{
    let [c0, c1, c2, c3] = count.to_be_bytes();
    let b = bearer % 32 * 8;
    let d = direction % 2 * 128;
    [
        c0,
        c1,
        c2,
        c3,
        b,
        0,
        0,
        0,
        c0 ^ d,
        c1,
        c2,
        c3,
        b,
        0,
        0 ^ d,
        0,
    ]
}

// A tag state, or BadKey for a key that is not 16 bytes.
pub fn new(count: u32, bearer: u8, direction: u8, key: &[u8]) -> Result<Mac128, Refusal>
    ensures { tag_told tagged_of-128 result ≡ start_outcome-EIA3 count bearer direction key.now }
{
    let v = iv(count, bearer, direction);
    begin_from(keystream::zuc128::new(key, &v))
}

// The same of a bearer and a direction that are taken as given: BadField, after BadKey, for a bearer above 31 or a direction above 1.
pub fn new_strict(count: u32, bearer: u8, direction: u8, key: &[u8]) -> Result<Mac128, Refusal>
    ensures { tag_told tagged_of-128 result ≡ strict_start_outcome-EIA3 count bearer direction key.now }
{
    if key.len() != 16 {
        return Err(Refusal::BadKey);
    }
    if !fields_fit(bearer, direction) {
        return Err(Refusal::BadField);
    }
    new(count, bearer, direction, key)
}

// A whole message at once, or BadKey, BadBits, Spent, in this order.
pub fn compute(
    count: u32,
    bearer: u8,
    direction: u8,
    key: &[u8],
    message: &[u8],
    l: usize,
) -> Result<u32, Refusal>
    ensures { once_told 0 result ≡ once_outcome-EIA3 count bearer direction key.now message.now l }
{
    let v = iv(count, bearer, direction);
    super::zuc128::compute(key, &v, message, l)
}

// The same of a bearer and a direction as given: BadKey, BadField, BadBits, Spent, in this order.
pub fn compute_strict(
    count: u32,
    bearer: u8,
    direction: u8,
    key: &[u8],
    message: &[u8],
    l: usize,
) -> Result<u32, Refusal>
    ensures { once_told 0 result ≡ strict_once_outcome-EIA3 count bearer direction key.now message.now l }
{
    if key.len() != 16 {
        return Err(Refusal::BadKey);
    }
    if !fields_fit(bearer, direction) {
        return Err(Refusal::BadField);
    }
    compute(count, bearer, direction, key, message, l)
}
