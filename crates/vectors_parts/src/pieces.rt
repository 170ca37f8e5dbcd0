// Bytes cut at a character: a text into lines, a line into words. They need not be UTF-8, so std's methods of text do not serve.
ghost use Rattle.std.specs.Prelude.{◌+◌, ◌<◌, ◌≤◌, length};
ghost use Rattle.std.specs.Iterator.{at_most};

// What stands before the first of a character, or all; and what stands behind it.
pub fn cut(s: &[u8], c: u8) -> (&[u8], &[u8])
    ensures front { length result.0.now ≤ length s.now }
    ensures behind { 0 < length s.now → length result.1.now < length s.now }
{
    match s.iter().position(|b| *b == c) {
        Some(i) => (&s[..i], &s[i + 1..]),
        None => (s, &[]),
    }
}

// The pieces that a character cuts bytes into. One at their end begins no piece.
#[derive(Clone, Copy)]
pub struct Pieces<'a> {
    rest: &'a [u8],
    by: u8,
}

impl<'a> Iterator for Pieces<'a> {
    type Item = &'a [u8];

    ghost remaining = { λ s. at_most (length s.rest.now) };

    fn next(&mut self) -> Option<&'a [u8]> {
        if self.rest.is_empty() {
            return None;
        }
        let (piece, rest) = cut(self.rest, self.by);
        self.rest = rest;
        Some(piece)
    }
}

pub fn lines(text: &[u8]) -> Pieces<'_> {
    Pieces {
        rest: text,
        by: b'\n',
    }
}

// The words of a line, which single spaces cut.
pub fn words(line: &[u8]) -> Pieces<'_> {
    Pieces {
        rest: line,
        by: b' ',
    }
}
