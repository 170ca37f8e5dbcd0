// Opens a stream of sealed frames, put end to end (request 2026-01): open CK IK < frames > bodies
// CK and IK name files of 16 bytes. A line on standard error says each frame's fields.
#![tactic(auto)]

use frame::FrameFields;
use frame_files::files::{keys_fit, read_frame, read_key, words_of_command};
use frame_files::told::{Stop, stopped};
use refusals::Refusal;
use std::io::{Input, Print, Write};

fn tell(rt: &HostRuntime, f: FrameFields) {
    let FrameFields {
        count,
        bearer,
        direction,
        bits,
    } = f;
    let _ = eprintln!(rt; "COUNT {count} BEARER {bearer} DIRECTION {direction} BITS {bits}");
}

// Opens one frame. What is refused writes nothing.
fn open(rt: &HostRuntime, ck: &[u8], ik: &[u8], frame: &mut [u8]) -> Result<(), Stop> {
    let fields = frame::read(ck, ik, frame)?;
    let end = frame.len() - 4;
    rt.write_all(&frame[13..end]).map_err(Stop::Output)?;
    tell(rt, fields);
    Ok(())
}

// A loop that is proved must end, and nothing says that a stream does: so it goes no further than a number of frames that no stream reaches.
fn open_all(rt: &HostRuntime, ck: &[u8], ik: &[u8]) -> Result<(), Stop> {
    let mut from = rt.reader();
    let mut frame = [0u8; 65538];
    for _ in 0..u64::MAX {
        let n = read_frame(&mut from, &mut frame).map_err(|e| Stop::Input(e.why))?;
        if n == 0 {
            break;
        }
        open(rt, ck, ik, &mut frame[..n])?;
    }
    Ok(())
}

fn run(rt: &HostRuntime) -> Result<(), Stop> {
    if words_of_command(rt) != 3 {
        return Err(Stop::Usage("open CK IK < frames > bodies"));
    }
    let mut err = rt.stderr();
    let mut ck = [0u8; 17];
    let mut ik = [0u8; 17];
    let ck = read_key(rt, &mut err, 1, &mut ck).unwrap_or_default();
    let ik = read_key(rt, &mut err, 2, &mut ik).unwrap_or_default();
    if !keys_fit(ck, ik) {
        return Err(Stop::Refused(Refusal::BadKey));
    }
    open_all(rt, ck, ik)
}

fn main(rt: HostRuntime) {
    if let Err(why) = run(&rt) {
        stopped(&mut rt.stderr(), why);
    }
}
