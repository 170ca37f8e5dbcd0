// What programs tell: on standard error, or on the writer that stands for it. A line that cannot be written is let go.
use refusals::Refusal;
use std::io::Write;
use std::{fmt, io};

// Why a program stops: it is used wrongly, a refusal by its number in the standard's table, or a stream that failed.
#[derive(Clone, Copy, Debug)]
pub enum Stop {
    Usage(&'static str),
    Refused(Refusal),
    Input(io::Error),
    Output(io::Error),
}

impl From<Refusal> for Stop {
    fn from(refusal: Refusal) -> Stop {
        Stop::Refused(refusal)
    }
}

pub fn text<W: Write>(to: &mut W, line: &[u8]) {
    let _ = to.write_all(line);
}

pub fn stopped<W: Write>(to: &mut W, why: Stop) {
    match why {
        Stop::Usage(usage) => {
            let _ = writeln!(to, "usage: {usage}");
        }
        Stop::Refused(refusal) => {
            let number = u32::from(refusal);
            let _ = writeln!(to, "refused {number}");
        }
        Stop::Input(why) => failed(to, b"failed: standard input", why),
        Stop::Output(why) => failed(to, b"failed: standard output", why),
    }
}

// The system's words for an error, without the number that std puts behind them.
#[derive(Drop)]
struct Words<'a, W> {
    to: &'a mut W,
    ended: bool,
}

impl<W: Write> fmt::Write for Words<'_, W> {
    fn write_str(&mut self, part: &str) -> fmt::Result {
        if self.ended {
            return Ok(());
        }
        match part.split_once(" (os error ") {
            Some((words, _)) => {
                self.ended = true;
                text(self.to, words.as_bytes());
            }
            None => text(self.to, part.as_bytes()),
        }
        Ok(())
    }
}

// What failed, as the caller names it, and why. A file's name may be no text, so bytes.
pub fn failed<W: Write>(to: &mut W, what: &[u8], why: io::Error) {
    text(to, what);
    text(to, b": ");
    let mut words = Words { to, ended: false };
    let _ = fmt::Write::write_fmt(&mut words, why);
    text(to, b"\n");
}
