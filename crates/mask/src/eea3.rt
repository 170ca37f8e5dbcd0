// 128-EEA3 in one call: start-up and mask on one run, in either mode, and the strict forms (request 2026-04). No state is written between.
// Four public forms and no switch in their place: each is a call of the requests and of C, with a name of its own. COUNT, bearer and direction
// are parameters, as in the document and in C.
ghost use Rattle.std.specs.Prelude.{length, ◌≡◌};
ghost use Rattle.mask.specs.Inner.{Enough, end_of};
ghost use Rattle.mask.specs.Modes.{plain-EEA3, strict-EEA3};
ghost use Rattle.mask.specs.Once.{clean-EEA3, crate-EEA3, once_told, strict_clean-EEA3, strict_crate-EEA3};
ghost use Rattle.standard.specs.Confidentiality.{IV-EEA3, mask_clean};
ghost use Rattle.standard.specs.Generator.{keystream};
ghost use Rattle.standard.specs.Loading.{load₁₂₈};

use super::{Reach, mask_loaded, reach_of};
use refusals::Refusal;
use words::fields_fit;
use zuc_loading::eea3::iv;
use zuc_loading::zuc128::load;

// The mask by the keystream of a key of 16 bytes. The state after it is nobody's, so that no word is drawn but for a byte.
fn mask_by(
    count: u32,
    bearer: u8,
    direction: u8,
    key: &[u8],
    buf: &mut [u8],
    bits: usize,
    reach: Reach,
)
    requires key_fits { length key.now ≡ 16 }
    requires enough { Enough (length buf.old) bits reach }
    ensures { buf.new ≡ mask_clean (keystream (load₁₂₈ key.now (IV-EEA3 count bearer direction))) (end_of bits reach) buf.old }
{
    let v = iv(count, bearer, direction);
    let loaded = load(key, &v);
    let to = reach.to;
    let fewest = Reach {
        kept: reach.kept,
        to,
        drawn: to / 4 + (to % 4 + 3) / 4,
    };
    mask_loaded(loaded, buf, bits, fewest);
}

// Both modes. The tests come before start-up, so that a refusal does not pay for it.
fn masked(
    clean: bool,
    count: u32,
    bearer: u8,
    direction: u8,
    key: &[u8],
    buf: &mut [u8],
    bits: usize,
) -> Result<usize, Refusal>
    ensures { once_told result buf.new ≡ plain-EEA3 clean count bearer direction key.now bits buf.old }
{
    if key.len() != 16 {
        return Err(Refusal::BadKey);
    }
    if !words::bits_fit(bits, buf.len()) {
        return Err(Refusal::BadBits);
    }
    let reach = reach_of(clean, bits, buf.len());
    let drawn = reach.drawn;
    if !words::has_left(0, drawn) {
        return Err(Refusal::Spent);
    }
    mask_by(count, bearer, direction, key, buf, bits, reach);
    Ok(drawn)
}

// Both modes of the strict form: a bearer above 31 or a direction above 1 is refused.
fn masked_strict(
    clean: bool,
    count: u32,
    bearer: u8,
    direction: u8,
    key: &[u8],
    buf: &mut [u8],
    bits: usize,
) -> Result<usize, Refusal>
    ensures { once_told result buf.new ≡ strict-EEA3 clean count bearer direction key.now bits buf.old }
{
    if key.len() != 16 {
        return Err(Refusal::BadKey);
    }
    if !fields_fit(bearer, direction) {
        return Err(Refusal::BadField);
    }
    masked(clean, count, bearer, direction, key, buf, bits)
}

// As the crate does (its `eea3_xor_inplace`), or BadKey, BadBits, Spent, in this order.
pub fn mask_crate(
    count: u32,
    bearer: u8,
    direction: u8,
    key: &[u8],
    buf: &mut [u8],
    bits: usize,
) -> Result<usize, Refusal>
    ensures { once_told result buf.new ≡ crate-EEA3 count bearer direction key.now bits buf.old }
{
    masked(false, count, bearer, direction, key, buf, bits)
}

// Every bit at or past the length is zeroed; or BadKey, BadBits, Spent.
pub fn mask_clean(
    count: u32,
    bearer: u8,
    direction: u8,
    key: &[u8],
    buf: &mut [u8],
    bits: usize,
) -> Result<usize, Refusal>
    ensures { once_told result buf.new ≡ clean-EEA3 count bearer direction key.now bits buf.old }
{
    masked(true, count, bearer, direction, key, buf, bits)
}

// Crate mode of a bearer and a direction as given, or BadKey, BadField, BadBits, Spent, in this order.
pub fn mask_crate_strict(
    count: u32,
    bearer: u8,
    direction: u8,
    key: &[u8],
    buf: &mut [u8],
    bits: usize,
) -> Result<usize, Refusal>
    ensures { once_told result buf.new ≡ strict_crate-EEA3 count bearer direction key.now bits buf.old }
{
    masked_strict(false, count, bearer, direction, key, buf, bits)
}

// Clean mode of a bearer and a direction as given, or BadKey, BadField, BadBits, Spent, in this order.
pub fn mask_clean_strict(
    count: u32,
    bearer: u8,
    direction: u8,
    key: &[u8],
    buf: &mut [u8],
    bits: usize,
) -> Result<usize, Refusal>
    ensures { once_told result buf.new ≡ strict_clean-EEA3 count bearer direction key.now bits buf.old }
{
    masked_strict(true, count, bearer, direction, key, buf, bits)
}
