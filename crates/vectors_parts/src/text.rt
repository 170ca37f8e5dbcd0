// Text in a room of fixed size: what comes past its end is let go. (No heap here: memory could run out, where these programs cannot fail.)
ghost use Rattle.std.specs.Prelude.{◌≡◌, ◌*◌, ◌^◌, ◌<◌, ◌≤◌, length, ltb};

use crate::fields::{Base, number};
use crate::pieces::{cut, words};
use std::fmt::Write;
use std::{array, fmt};

// A number in hexadecimal, with zeros in front.
fn digits(n: u64) -> [u8; 16] {
    array::from_fn(|i| b"0123456789abcdef"[((n >> (60 - 4 * i)) % 16) as usize])
}

// Whether so many hexadecimal digits hold a number.
fn fits(n: u64, width: usize) -> bool
    requires { width ≤ 16 }
    ensures { result ≡ ltb n (2 ^ (4 * width)) }
{
    u128::from(n) < 1 << (4 * width)
}

#[derive(Clone, Copy)]
pub struct Text<const N: usize> {
    room: [u8; N],
    len: usize,
    ghost inside: { len ≤ N },
}

impl<const N: usize> Text<N> {
    pub fn new() -> Self
        requires { N < 2 ^ 63 }
    {
        Text {
            room: [0u8; N],
            len: 0,
        }
    }

    pub fn as_slice(&self) -> &[u8] {
        &self.room[..self.len]
    }

    pub fn as_mut_slice(&mut self) -> &mut [u8] {
        let len = self.len;
        let room = &mut self.room;
        let room = &mut room[..];
        &mut room[..len]
    }

    // Whether something may have been let go.
    pub fn is_full(&self) -> bool {
        self.len == N
    }

    pub fn push(&mut self, bytes: &[u8]) {
        let start = self.len;
        let n = bytes.len().min(N - start);
        let room = &mut self.room[..];
        room[start..start + n].copy_from_slice(&bytes[..n]);
        self.len = start + n;
    }

    // A word: what stands before its * as often as the number behind that says, or else itself.
    fn push_repeated(&mut self, word: &[u8]) {
        let (what, times) = cut(word, b'*');
        match number(times, Base::Ten, 4) {
            Some(times) => {
                for _ in 0..times {
                    self.push(what);
                }
            }
            None => self.push(word),
        }
    }

    // A line with what is repeated in it written out, and a space behind each word.
    pub fn push_line(&mut self, line: &[u8]) {
        for word in words(line) {
            self.push_repeated(word);
            self.push(b" ");
        }
    }

    // What a call told is put together by these, a space behind each; in place, since a text by value is zeroed and copied at each step. Here a
    // number in decimal.
    pub fn number(&mut self, n: u64) {
        let _ = write!(self, "{n} ");
    }

    // Bytes or words in hexadecimal: - where there are none. By a table where a type has 1 to 16 digits and the number no more than that, since a
    // format is slower.
    pub fn hex<T: Copy + Into<u64>>(&mut self, all: &[T]) {
        if all.is_empty() {
            self.push(b"-");
        }
        for x in all {
            let n = (*x).into();
            match 2 * size_of::<T>() {
                width @ 1..=16 if fits(n, width) => self.push(&digits(n)[16 - width..]),
                width => {
                    let _ = write!(self, "{n:0width$x}");
                }
            }
        }
        self.push(b" ");
    }
}

impl<const N: usize> fmt::Write for Text<N> {
    fn write_str(&mut self, s: &str) -> fmt::Result {
        self.push(s.as_bytes());
        Ok(())
    }
}
