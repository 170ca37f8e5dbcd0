// The crate's recorded answers (standard input) held to the public calls: how many, and how many differ. After them some that are
// altered, which must all differ.
#![tactic(auto)]

mod calls;
mod record;

ghost use Rattle.std.specs.Prelude.{◌+◌, ◌^◌, ◌<◌, ◌≤◌, IfSome, length};

use frame_files::input::read_full;
use std::io;
use vectors_parts::digit;

// Hexadecimal text packed into bytes in place, every other character skipped: how many bytes. (By index: what is read and what is written is
// one buffer.)
fn pack(text: &mut [u8]) -> usize
    ensures { result ≤ length text.old }
{
    let mut out: usize = 0;
    let mut waits = None;
    for i in 0..text.len() {
        let Some(low) = digit(text[i]) else {
            continue;
        };
        match waits {
            None => waits = Some(low * 16),
            Some(high) => {
                text[out] = high | low;
                out += 1;
                waits = None;
            }
        }
    }
    out
}

// Records run, how many of them differ, and what follows the list.
#[derive(Clone, Copy)]
struct Tally<'a> {
    records: u64,
    differ: u64,
    rest: &'a [u8],
}

// The record that bytes begin with, after its length, and what follows it: none where they end before.
fn next_record(bytes: &[u8]) -> Option<(&[u8], &[u8])>
    ensures { IfSome result (λ r. length r.1.now + 2 ≤ length bytes.now) }
{
    let (len, rest) = bytes.split_first_chunk::<2>()?;
    rest.split_at_checked(usize::from(u16::from_be_bytes(*len)))
}

// Record after record until the one of no bytes.
fn replay(bytes: &[u8]) -> Tally<'_> {
    let mut records: u64 = 0;
    let mut differ: u64 = 0;
    let mut rest = bytes;
    while let Some((record, behind)) = next_record(rest) {
        rest = behind;
        if record.is_empty() {
            break;
        }
        if !calls::agrees(record) {
            differ += 1;
        }
        records += 1;
    }
    Tally {
        records,
        differ,
        rest,
    }
}

fn tell(rt: &impl Print, t: Tally<'_>, what: &str) -> io::Result<()> {
    let Tally {
        records,
        differ,
        ..
    } = t;
    println!(rt; "{records} {what}, {differ} different")
}

// Text of at most N bytes, read and replayed.
fn shown<const N: usize>(rt: &(impl Input + Print)) -> io::Result<()>
    requires { N < 2 ^ 63 }
{
    let mut room = [0u8; N];
    let got = read_full(&mut rt.reader(), &mut room)?;
    let text = &mut room[..];
    let n = pack(&mut text[..got]);
    let recorded = replay(&text[..n]);
    tell(rt, recorded, "recorded answers")?;
    tell(rt, replay(recorded.rest), "altered answers")
}

fn main(rt: HostRuntime) -> io::Result<()> {
    shown::<262144>(&rt)
}
