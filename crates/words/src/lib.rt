// What several crates ask of a word or a number, in the documents' notation: rotation, bytes of a word, the high bits of a byte, a bit length
// held against a byte count, a bearer and a direction against their fields, words against what is left.
#![tactic(auto)]

ghost use Rattle.std.specs.Prelude.{leb, length, ◌≡◌, ◌+◌, ◌*◌, ◌<◌, ◌≤◌};
ghost use Rattle.standard.specs.Bits.{byte_of};
ghost use Rattle.standard.specs.Confidentiality.{keep_high};
ghost use Rattle.standard.specs.Notation.{◌‖₈◌, ◌⋘◌};
ghost use Rattle.standard.specs.Refusals.{field_test};
ghost use Rattle.standard.specs.States.{limit};

// x rotated left by n, which is 1 to 31: the library's rotation, with the documents' ⋘ for what it gives.
pub fn rol(x: u32, n: u32) -> u32
    requires { (0 < n) × (n < 32) }
    ensures { result ≡ x ⋘ n }
{
    x.rotate_left(n)
}

// Four bytes as one word, highest first. By shifts: with `from_be_bytes` a draw, which joins four entries of the boxes, takes longer.
pub fn word_of(a: u8, b: u8, c: u8, d: u8) -> u32
    ensures { result ≡ a ‖₈ b ‖₈ c ‖₈ d }
{
    ((a as u32) << 24) + ((b as u32) << 16) + ((c as u32) << 8) + (d as u32)
}

// Byte j of a word, the highest first, for the loops that take one byte; who takes all four calls `to_be_bytes`.
pub fn byte_of(w: u32, j: usize) -> u8
    requires { j < 4 }
    ensures { result ≡ byte_of w j }
{
    w.to_be_bytes()[j]
}

// The k high bits of a byte: as a u32, since a byte can't be shifted by 8.
pub fn keep_high(byte: u8, k: usize) -> u8
    requires { k ≤ 8 }
    ensures { result ≡ keep_high k byte }
{
    let low = 8 - k;
    (((byte as u32) >> low) << low) as u8
}

// Whether a bit length is at most 8 times a number of bytes. Nothing is multiplied, so nothing overflows.
pub fn bits_fit(bits: usize, bytes: usize) -> bool
    ensures { result ≡ leb bits (bytes * 8) }
{
    bits.div_ceil(8) <= bytes
}

// Whether a bearer has 5 bits and a direction one (request 2026-04).
pub fn fields_fit(bearer: u8, direction: u8) -> bool
    ensures { result ≡ (field_test bearer direction).passes }
{
    bearer <= 31 && direction <= 1
}

// The words of a start (request 2026-09).
pub const LIMIT: usize = 134217730;

// Whether so many words more are left of a start that has drawn a count of them. Nothing is added, so nothing overflows.
pub fn has_left(count: usize, words: usize) -> bool
    requires { count ≤ limit }
    ensures { result ≡ leb (count + words) limit }
{
    words <= LIMIT - count
}
