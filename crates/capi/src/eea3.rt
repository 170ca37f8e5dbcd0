// EEA3 in one call: a buffer and a count are lent, and no state.
ghost use Rattle.std.specs.Prelude.{List, ◌≡◌, ℕ};
ghost use Rattle.mask.specs.Once.{clean-EEA3, crate-EEA3, once_told, strict_clean-EEA3, strict_crate-EEA3};

use refusals::{Refusal, number_of};

// What a call answers goes into the count, whatever its buffer became.
fn put_once(answer: Result<usize, Refusal>, drawn: &mut usize) -> u32
    ensures { (buffer : List ℕ) → record { number = result; count = drawn.new; buffer = buffer } ≡ once_told answer buffer }
{
    *drawn = answer.unwrap_or(0);
    number_of(&answer)
}

// As the crate does, or BAD_KEY, BAD_BITS, SPENT.
pub fn eea3_mask_crate(
    count: u32,
    bearer: u8,
    direction: u8,
    key: &[u8],
    buf: &mut [u8],
    bits: usize,
    drawn: &mut usize,
) -> u32
    ensures { record { number = result; count = drawn.new; buffer = buf.new } ≡ crate-EEA3 count bearer direction key.now bits buf.old }
{
    let answer = mask::eea3::mask_crate(count, bearer, direction, key, buf, bits);
    put_once(answer, drawn)
}

// With every bit past the length zeroed, or BAD_KEY, BAD_BITS, SPENT.
pub fn eea3_mask_clean(
    count: u32,
    bearer: u8,
    direction: u8,
    key: &[u8],
    buf: &mut [u8],
    bits: usize,
    drawn: &mut usize,
) -> u32
    ensures { record { number = result; count = drawn.new; buffer = buf.new } ≡ clean-EEA3 count bearer direction key.now bits buf.old }
{
    let answer = mask::eea3::mask_clean(count, bearer, direction, key, buf, bits);
    put_once(answer, drawn)
}

// Crate mode of a bearer and a direction as given, or BAD_KEY, BAD_FIELD, BAD_BITS, SPENT.
pub fn eea3_mask_crate_strict(
    count: u32,
    bearer: u8,
    direction: u8,
    key: &[u8],
    buf: &mut [u8],
    bits: usize,
    drawn: &mut usize,
) -> u32
    ensures { record { number = result; count = drawn.new; buffer = buf.new } ≡ strict_crate-EEA3 count bearer direction key.now bits buf.old }
{
    let answer = mask::eea3::mask_crate_strict(count, bearer, direction, key, buf, bits);
    put_once(answer, drawn)
}

// Clean mode of the same, or BAD_KEY, BAD_FIELD, BAD_BITS, SPENT.
pub fn eea3_mask_clean_strict(
    count: u32,
    bearer: u8,
    direction: u8,
    key: &[u8],
    buf: &mut [u8],
    bits: usize,
    drawn: &mut usize,
) -> u32
    ensures { record { number = result; count = drawn.new; buffer = buf.new } ≡ strict_clean-EEA3 count bearer direction key.now bits buf.old }
{
    let answer = mask::eea3::mask_clean_strict(count, bearer, direction, key, buf, bits);
    put_once(answer, drawn)
}
