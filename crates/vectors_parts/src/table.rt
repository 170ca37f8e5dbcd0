// A table for people: name, expected, got, ok. The rows are counted as they are shown.
use std::io;

// What a row asks for: that a call tells what is expected, or, of an altered row, that it is found different.
#[derive(Clone, Copy, PartialEq, Eq)]
pub enum Asks {
    Same,
    Different,
}

// Rows that are right and that are wrong; and of the altered ones, those found different and those missed.
#[derive(Clone, Copy)]
pub struct Table {
    ok: u64,
    wrong: u64,
    found: u64,
    missed: u64,
}

// Bytes in a column of 22: a number, eight bytes and the spaces behind them, and two dots where there is more. (They need not be UTF-8, so
// no format pads them.)
fn column(rt: &impl Print, bytes: &[u8]) -> io::Result<()> {
    if 19 < bytes.len() {
        rt.write_all(&bytes[..19])?;
        return rt.write_all(b".. ");
    }
    rt.write_all(bytes)?;
    let spaces = b"                      ".as_slice();
    rt.write_all(&spaces[bytes.len()..])
}

impl Table {
    // The head of a table of no rows.
    pub fn headed(rt: &impl Print) -> io::Result<Table> {
        rt.write_all(b"  ")?;
        column(rt, b"name")?;
        column(rt, b"expected")?;
        column(rt, b"got")?;
        rt.write_all(b"\n")?;
        Ok(Table {
            ok: 0,
            wrong: 0,
            found: 0,
            missed: 0,
        })
    }

    // A row: what a call must tell, and what it told. One test decides for both kinds, so that the altered ones show that it is made.
    pub fn row(
        &mut self,
        rt: &impl Print,
        name: &[u8],
        want: &[u8],
        got: &[u8],
        asks: Asks,
    ) -> io::Result<()> {
        rt.write_all(b"  ")?;
        column(rt, name)?;
        column(rt, want)?;
        column(rt, got)?;
        let said = match (want == got, asks) {
            (true, Asks::Same) => {
                self.ok = self.ok.wrapping_add(1);
                "ok"
            }
            (false, Asks::Same) => {
                self.wrong = self.wrong.wrapping_add(1);
                "WRONG"
            }
            (false, Asks::Different) => {
                self.found = self.found.wrapping_add(1);
                "differs"
            }
            (true, Asks::Different) => {
                self.missed = self.missed.wrapping_add(1);
                "SAME"
            }
        };
        println!(rt; "{said}")
    }

    // How many rows there were of each kind.
    pub fn foot(&self, rt: &impl Print) -> io::Result<()> {
        let Table {
            ok,
            wrong,
            found,
            missed,
        } = *self;
        let altered = found.wrapping_add(missed);
        println!(rt; "{ok} rows ok, {wrong} wrong; {altered} altered rows, {found} found different")
    }
}
