// Digits, lines cut into words, text of fixed room that tells what calls told; arrays turned, and a table of rows: for the programs.
#![tactic(auto)]

ghost use Rattle.std.specs.Prelude.{◌<◌, IfSome};

pub mod fields;
pub mod pieces;
pub mod table;
#[cfg(test)]
mod tests;
pub mod text;
pub mod turned;

// The value of a hexadecimal digit. (std's to_digit takes capital letters too.)
pub fn digit(c: u8) -> Option<u8>
    ensures { IfSome result (λ d. d < 16) }
{
    match c {
        b'0'..=b'9' => Some(c - b'0'),
        b'a'..=b'f' => Some(c - b'a' + 10),
        _ => None,
    }
}
