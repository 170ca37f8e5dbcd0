// Input, read into a buffer.
ghost use Rattle.std.specs.Prelude.{◌≡◌, ◌≤◌, IfErr, IfOk, length};

use std::error::Error;
use std::io::Read;
use std::{fmt, io};

// A read that failed, and how many bytes came before it: they stand at the buffer's start.
#[derive(Clone, Copy, Debug)]
pub struct BrokenOff {
    pub bytes: usize,
    pub why: io::Error,
}

impl fmt::Display for BrokenOff {
    fn fmt<W: fmt::Write>(&self, f: &mut fmt::Formatter<W>) -> fmt::Result {
        let BrokenOff { bytes, why } = self;
        write!(f, "{why}; bytes before it: {bytes}")
    }
}

impl Error for BrokenOff {}

// For a caller that takes all or nothing.
impl From<BrokenOff> for io::Error {
    ghost from_gives = { λ broken e. e ≡ broken.why };

    fn from(broken: BrokenOff) -> io::Error {
        broken.why
    }
}

// Reads until the buffer is full or the input ends: how many bytes there are at its start. (A read_exact of std's does not tell how many
// came before the end, or before a failure.)
pub fn read_full<R: Read>(from: &mut R, buf: &mut [u8]) -> Result<usize, BrokenOff>
    ensures ok { IfOk result (λ n. n ≤ length buf.new) }
    ensures err { IfErr result (λ e. e.bytes ≤ length buf.new) }
{
    let mut done: usize = 0;
    while done < buf.len() {
        let n = from
            .read(&mut buf[done..])
            .map_err(|why| BrokenOff { bytes: done, why })?;
        if n == 0 {
            break;
        }
        done += n;
    }
    Ok(done)
}
