// A script of calls (standard input), run through the functions that `capi_c` exports and shown as a table. README.md says what its
// lines are.
#![tactic(auto)]

mod calls;
mod in_place;
mod kinds;

ghost use Rattle.std.specs.Prelude.{◌^◌, ◌<◌};

use calls::{Arrays, Told, call};
use frame_files::input::read_full;
use std::io;
use vectors_parts::pieces::{cut, lines};
use vectors_parts::table::{Asks, Table};

// The rows so far, the name of the last call in the script and what it told; what was kept of an earlier one, and arrays as they were
// saved.
#[derive(Drop)]
struct Progress<'a> {
    table: Table,
    name: &'a [u8],
    got: Told,
    kept: Told,
    arrays: Arrays,
    saved: Arrays,
}

impl<'a> Progress<'a> {
    // What the last call told, held to what it must tell.
    fn held(&mut self, rt: &impl Print, want: &[u8], asks: Asks) -> io::Result<()> {
        let got = self.got;
        self.table.row(rt, self.name, want, got.as_slice(), asks)
    }

    // A line that calls. One that is no call, or whose answer fills the room and may be cut, is a wrong row.
    fn called(&mut self, rt: &impl Print, line: &[u8], name: &'a [u8]) -> io::Result<()> {
        self.got = Told::new();
        let made = call(line, &mut self.arrays, &mut self.got);
        self.name = name;
        if made.is_none() || self.got.is_full() {
            self.got = Told::new();
            let (name, _) = cut(line, b' ');
            self.table
                .row(rt, name, b"a call", b"broken line", Asks::Same)?;
        }
        Ok(())
    }

    // A line that is no call, and must be found so.
    fn found_broken(&mut self, rt: &impl Print, line: &[u8]) -> io::Result<()> {
        let (name, _) = cut(line, b' ');
        let got = match call(line, &mut self.arrays, &mut Told::new()) {
            None => b"broken line".as_slice(),
            Some(_) => b"a call",
        };
        self.table.row(rt, name, b"broken line", got, Asks::Same)
    }

    // A line with what is repeated in it written out, so that a space stands behind each word; and the name that it has in the script.
    fn step(&mut self, rt: &impl Print, line: &[u8], name: &'a [u8]) -> io::Result<()> {
        match cut(line, b' ') {
            (b">", want) => return self.held(rt, want, Asks::Same),
            (b"!", want) => return self.held(rt, want, Asks::Different),
            (b"?", line) => return self.found_broken(rt, line),
            _ => {}
        }
        match line {
            b"= kept " => {
                let kept = self.kept;
                return self.held(rt, kept.as_slice(), Asks::Same);
            }
            b"keep " => self.kept = self.got,
            b"save " => self.saved = self.arrays,
            b"load " => self.arrays = self.saved,
            _ => return self.called(rt, line, name),
        }
        Ok(())
    }

    // A line of the script: comments and empty lines are passed over, and a name is shown. One that fills the room, and may be cut, is taken
    // for no call.
    fn read(&mut self, rt: &impl Print, line: &'a [u8]) -> io::Result<()> {
        match line {
            [] | [b'#', ..] => Ok(()),
            [b'[', name @ ..] => {
                let (name, _) = cut(name, b']');
                rt.write_all(name)?;
                rt.write_all(b"\n")
            }
            _ => {
                let (name, _) = cut(line, b' ');
                let mut written = Told::new();
                written.push_line(line);
                let line = if written.is_full() {
                    &[]
                } else {
                    written.as_slice()
                };
                self.step(rt, line, name)
            }
        }
    }
}

fn run(rt: &impl Print, script: &[u8]) -> io::Result<Table> {
    let zeros = Arrays {
        generator: [0; 20],
        tag: [0; 21],
    };
    let (first, _) = cut(script, b'\n');
    let (name, _) = cut(first, b' ');
    let mut p = Progress {
        table: Table::headed(rt)?,
        name,
        got: Told::new(),
        kept: Told::new(),
        arrays: zeros,
        saved: zeros,
    };
    for line in lines(script) {
        p.read(rt, line)?;
    }
    Ok(p.table)
}

// A script of at most N bytes, read and run.
fn shown<const N: usize>(rt: &(impl Input + Print)) -> io::Result<()>
    requires { N < 2 ^ 63 }
{
    let mut room = [0u8; N];
    let n = read_full(&mut rt.reader(), &mut room)?;
    let script = &room[..];
    run(rt, &script[..n])?.foot(rt)
}

fn main(rt: HostRuntime) -> io::Result<()> {
    shown::<524288>(&rt)
}
