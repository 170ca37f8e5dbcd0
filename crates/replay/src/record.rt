// A recorded call and what the crate answered, read from the bytes of a record. compare/README.md says the format.
ghost use Rattle.std.specs.Prelude.{◌<◌};
ghost use Rattle.std.specs.Iterator.{at_most};

// A record has at most 65,535 bytes. What is read past its end is zeros, and a place wraps at 65,536.
#[derive(Clone, Copy)]
pub struct Record<'a>(pub &'a [u8]);

// A field of bytes: those that the record has of it, how many it should have, and the place behind it.
#[derive(Clone, Copy)]
pub struct Field<'a> {
    pub bytes: &'a [u8],
    pub len: usize,
    pub end: usize,
}

impl<'a> Record<'a> {
    fn byte(self, at: usize) -> u8 {
        self.0.get(at).copied().unwrap_or(0)
    }

    // A number of two or of four bytes.
    fn short(self, at: usize) -> usize
        ensures { result < 65536 }
    {
        let i = at % 65536;
        usize::from(u16::from_be_bytes([self.byte(i), self.byte(i + 1)]))
    }

    fn word(self, at: usize) -> u32 {
        let i = at % 65536;
        u32::from_be_bytes([
            self.byte(i),
            self.byte(i + 1),
            self.byte(i + 2),
            self.byte(i + 3),
        ])
    }

    // A field of bytes after its length.
    fn field(self, at: usize) -> Field<'a>
        ensures { result.end < 65536 }
    {
        let i = at % 65536;
        let len = self.short(i);
        let behind = self.0.get(i + 2..).unwrap_or_default();
        Field {
            bytes: behind.get(..len).unwrap_or(behind),
            len,
            end: (i + 2 + len) % 65536,
        }
    }
}

// What a record calls, by the high digit of its first byte.
#[derive(Clone, Copy, PartialEq, Eq)]
pub enum Makes {
    Words,
    Mask,
    Tag,
}

// The digit of no call.
#[derive(Clone, Copy, Debug, PartialEq, Eq)]
pub struct UnknownCall(pub u8);

impl TryFrom<u8> for Makes {
    type Error = UnknownCall;

    fn try_from(digit: u8) -> Result<Self, UnknownCall> {
        match digit {
            0 => Ok(Makes::Words),
            1 => Ok(Makes::Mask),
            2 => Ok(Makes::Tag),
            _ => Err(UnknownCall(digit)),
        }
    }
}

// The cipher, by the low digit.
#[derive(Clone, Copy, PartialEq, Eq)]
pub enum Cipher {
    Zuc128,
    Zuc256,
    Lte,
}

impl From<u8> for Cipher {
    fn from(digit: u8) -> Cipher {
        match digit {
            1 => Cipher::Zuc128,
            2 => Cipher::Zuc256,
            _ => Cipher::Lte,
        }
    }
}

#[derive(Clone, Copy)]
pub struct Call<'a> {
    pub makes: Makes,
    pub cipher: Cipher,
    pub width: usize,
    pub count: u32,
    pub bearer: u8,
    pub direction: u8,
    pub key: &'a [u8],
    pub iv: &'a [u8],
    pub updates: Updates<'a>,
}

// So many fields of bytes, one behind another.
#[derive(Clone, Copy)]
pub struct Updates<'a> {
    record: Record<'a>,
    left: u8,
    at: usize,
}

impl Updates<'_> {
    // The place behind the last of them.
    fn end(self) -> usize {
        (0..self.left).fold(self.at, |at, _| self.record.field(at).end)
    }
}

impl<'a> Iterator for Updates<'a> {
    type Item = &'a [u8];

    ghost remaining = { λ s. at_most s.left };

    fn next(&mut self) -> Option<&'a [u8]> {
        if self.left == 0 {
            return None;
        }
        let f = self.record.field(self.at);
        self.left -= 1;
        self.at = f.end;
        Some(f.bytes)
    }
}

#[derive(Clone, Copy)]
pub struct Answer<'a> {
    pub tail: Field<'a>,
    pub bits: usize,
    pub refusal: u8,
    pub drawn: usize,
    pub bytes: &'a [u8],
    pub next: u32,
}

impl<'a> Record<'a> {
    fn call(self) -> Result<Call<'a>, UnknownCall> {
        let kind = self.byte(0);
        let key = self.field(8);
        let iv = self.field(key.end);
        Ok(Call {
            makes: Makes::try_from(kind / 16)?,
            cipher: Cipher::from(kind % 16),
            width: usize::from(self.byte(1)),
            count: self.word(2),
            bearer: self.byte(6),
            direction: self.byte(7),
            key: key.bytes,
            iv: iv.bytes,
            updates: Updates {
                record: self,
                left: self.byte(iv.end),
                at: iv.end + 1,
            },
        })
    }

    fn answer(self, at: usize) -> Answer<'a> {
        let tail = self.field(at);
        let i = tail.end;
        let bytes = self.field(i + 7);
        Answer {
            tail,
            bits: self.word(i) as usize,
            refusal: self.byte(i + 4),
            drawn: self.short(i + 5),
            bytes: bytes.bytes,
            next: self.word(bytes.end),
        }
    }

    // The call, and the answer behind its updates.
    pub fn parts(self) -> Result<(Call<'a>, Answer<'a>), UnknownCall> {
        let call = self.call()?;
        Ok((call, self.answer(call.updates.end())))
    }
}
