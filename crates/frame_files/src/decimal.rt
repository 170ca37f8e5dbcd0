// Words of a command as numbers.
ghost use Rattle.std.specs.Prelude.{true, ◌≡◌, ◌≤◌};
ghost use Rattle.frame_files.specs.Decimal.{all_digits, at_most, is_written, number_in, sized, value_of};

use std::error::Error;
use std::fmt;

// Why a word is no number of 32 bits: it is a larger one, or no number at all.
#[derive(Clone, Copy, Debug, PartialEq, Eq)]
pub enum NumberError {
    Above,
    NotDigits,
}

impl fmt::Display for NumberError {
    fn fmt<W: fmt::Write>(&self, f: &mut fmt::Formatter<W>) -> fmt::Result {
        f.write_str(match self {
            NumberError::Above => "larger than 32 bits",
            NumberError::NotDigits => "not decimal digits",
        })
    }
}

impl Error for NumberError {}

fn all_digits(text: &[u8]) -> bool
    ensures { result ≡ all_digits text.now }
{
    text.iter().all(|c| c.is_ascii_digit())
}

// The value of digits. It stops at the first digit that takes it past 32 bits: no later one brings it back.
fn value(digits: &[u8]) -> Result<u32, NumberError>
    requires { all_digits digits.now ≡ true }
    ensures { result ≡ sized (value_of digits.now) }
{
    let mut v: u64 = 0;
    for c in digits {
        v = v * 10 + u64::from(*c - b'0');
        if 0xffff_ffff < v {
            return Err(NumberError::Above);
        }
    }
    Ok(v as u32)
}

// The number that a word of decimal digits is. An empty word is none.
#[tactic(auto, unfolding(crate::specs::Decimal::number_in))]
pub fn number_in(text: &[u8]) -> Result<u32, NumberError>
    ensures { result ≡ number_in text.now }
{
    if text.is_empty() || !all_digits(text) {
        return Err(NumberError::NotDigits);
    }
    value(text)
}

pub fn is_written(n: Result<u32, NumberError>) -> bool
    ensures { result ≡ is_written n }
{
    n != Err(NumberError::NotDigits)
}

// The number, or the most that a field holds where it is larger.
pub fn at_most(n: Result<u32, NumberError>, most: u32) -> u32
    ensures { (result ≡ at_most n most) × (result ≤ most) }
{
    n.unwrap_or(most).min(most)
}
