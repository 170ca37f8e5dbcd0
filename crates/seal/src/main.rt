// Seals a body (request 2026-01): seal CK IK COUNT BEARER DIRECTION [BITS] < body > frame
// CK and IK name files of 16 bytes; the numbers are decimal; without BITS all bits of the body count.
#![tactic(auto)]

ghost use Rattle.std.specs.Prelude.{◌≤◌, IfSome};

use frame::FrameFields;
use frame_files::decimal::{NumberError, at_most, is_written, number_in};
use frame_files::files::{keys_fit, read_body, read_key, word_of_command, words_of_command};
use frame_files::told::{Stop, stopped};
use refusals::Refusal;
use std::env::Env;
use std::io::{Input, Print};

const USAGE: &str = "seal CK IK COUNT BEARER DIRECTION [BITS] < body > frame";

fn number_of_word<E: Env>(env: &E, i: usize) -> Result<u32, NumberError> {
    let mut word = [0u8; 4096];
    number_in(word_of_command(env, i, &mut word))
}

fn has_bits<E: Env>(env: &E) -> bool {
    words_of_command(env) == 7
}

// BITS, or 0 where it is left out: the body is not read yet.
fn bits_asked<E: Env>(env: &E) -> Result<u32, NumberError> {
    if has_bits(env) {
        number_of_word(env, 6)
    } else {
        Ok(0)
    }
}

// A number for a field that holds so much at most, none where the word is no number. One too large is the most that the field holds: a writer
// refuses that by the same number, 8 or 9, and in its order.
fn field(n: Result<u32, NumberError>, most: u32) -> Option<u32>
    ensures { IfSome result (λ v. v ≤ most) }
{
    if is_written(n) {
        Some(at_most(n, most))
    } else {
        None
    }
}

fn fields<E: Env>(env: &E) -> Option<FrameFields> {
    Some(FrameFields {
        count: number_of_word(env, 3).ok()?,
        bearer: field(number_of_word(env, 4), 255)? as u8,
        direction: field(number_of_word(env, 5), 255)? as u8,
        bits: field(bits_asked(env), u32::MAX)?,
    })
}

fn seal(rt: &HostRuntime, ck: &[u8], ik: &[u8], asked: FrameFields) -> Result<(), Stop> {
    let mut room = [0u8; 65539];
    let n = read_body(&mut rt.reader(), &mut room).map_err(|e| Stop::Input(e.why))?;
    let mut f = asked;
    if !has_bits(rt) {
        f.bits = n as u32 * 8;
    }
    let frame = &mut room[..n + 17];
    frame::write(ck, ik, f, frame)?;
    rt.write_all(frame).map_err(Stop::Output)
}

fn run(rt: &HostRuntime) -> Result<(), Stop> {
    if !matches!(words_of_command(rt), 6 | 7) {
        return Err(Stop::Usage(USAGE));
    }
    let f = fields(rt).ok_or(Stop::Usage(USAGE))?;
    let mut err = rt.stderr();
    let mut ck = [0u8; 17];
    let mut ik = [0u8; 17];
    let ck = read_key(rt, &mut err, 1, &mut ck).unwrap_or_default();
    let ik = read_key(rt, &mut err, 2, &mut ik).unwrap_or_default();
    if !keys_fit(ck, ik) {
        return Err(Stop::Refused(Refusal::BadKey));
    }
    seal(rt, ck, ik, f)
}

fn main(rt: HostRuntime) {
    if let Err(why) = run(&rt) {
        stopped(&mut rt.stderr(), why);
    }
}
