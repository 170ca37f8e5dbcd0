// A line's numbers and bytes, where a pattern says that they stand.
ghost use Rattle.std.specs.Prelude.{◌≡◌, ◌%◌, ◌^◌};

use crate::digit;
use crate::pieces::words;
use crate::text::Text;

#[derive(Clone, Copy, PartialEq, Eq)]
pub(crate) enum Base {
    Ten,
    Sixteen,
}

// The bytes that a word of a line can hold.
pub type Bytes = Text<1024>;

// In the order of the line.
#[derive(Clone, Copy)]
pub struct Fields {
    pub numbers: [u64; 4],
    pub bytes: [Bytes; 3],
}

// A count or a word of an array, which a line may give too great.
pub fn low_word(n: u64) -> u32
    ensures { result ≡ n % 2 ^ 32 }
{
    (n % 0x1_0000_0000) as u32
}

// The number that a word of digits is: none of a word without them, or with more than so many. It wraps past 64 bits.
pub(crate) fn number(word: &[u8], base: Base, most: usize) -> Option<u64> {
    if word.is_empty() || most < word.len() {
        return None;
    }
    let mut n: u64 = 0;
    for c in word {
        let digit = digit(*c)?;
        let shifted = match base {
            Base::Ten if 9 < digit => return None,
            Base::Ten => n % 1844674407370955162 * 10,
            Base::Sixteen => n % 0x1000_0000_0000_0000 * 16,
        };
        n = shifted.wrapping_add(u64::from(digit));
    }
    Some(n)
}

// The bytes that a word is in hexadecimal: - is none of them.
fn bytes_of(word: &[u8]) -> Option<Bytes> {
    let mut all = Bytes::new();
    if word == b"-".as_slice() {
        return Some(all);
    }
    let (pairs, odd) = word.as_chunks::<2>();
    if pairs.is_empty() || 1024 < pairs.len() || !odd.is_empty() {
        return None;
    }
    for [high, low] in pairs {
        all.push(&[digit(*high)? * 16 + digit(*low)?]);
    }
    Some(all)
}

impl Fields {
    // The fields of a line that has the words that a pattern asks for, and no more: N stands for a decimal number, W for a word in
    // hexadecimal, B for bytes, and any other word for itself.
    pub fn of(line: &[u8], pattern: &[u8]) -> Option<Fields> {
        let mut numbers = [0; 4];
        let mut bytes = [Bytes::new(); 3];
        let mut next_number = numbers.iter_mut();
        let mut next_bytes = bytes.iter_mut();
        let mut pattern = words(pattern);
        for word in words(line) {
            match pattern.next()? {
                b"N" => *next_number.next()? = number(word, Base::Ten, 20)?,
                b"W" => *next_number.next()? = number(word, Base::Sixteen, 16)?,
                b"B" => *next_bytes.next()? = bytes_of(word)?,
                asked => {
                    if word != asked {
                        return None;
                    }
                }
            }
        }
        match pattern.next() {
            None => Some(Fields { numbers, bytes }),
            Some(_) => None,
        }
    }

    // COUNT, BEARER and DIRECTION, where a line begins with them.
    pub fn count(&self) -> u32 {
        low_word(self.numbers[0])
    }

    pub fn bearer(&self) -> u8 {
        (self.numbers[1] % 256) as u8
    }

    pub fn direction(&self) -> u8 {
        (self.numbers[2] % 256) as u8
    }
}
