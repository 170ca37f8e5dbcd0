// Keys, bodies and frames read from files, into buffers of fixed size that the caller lends: no heap, since memory could run out.
ghost use Rattle.std.specs.Prelude.{◌&&◌, ◌≡◌, ◌+◌, ◌≤◌, IfErr, IfOk, IfSome, length};
ghost use Rattle.frame_files.specs.Stream.{IsPrefixLen, frame_end};
ghost use Rattle.standard.specs.Refusals.{key_test};

use crate::input::{BrokenOff, read_full};
use crate::told;
use std::env::{Env, FillError};
use std::fs::Files;
use std::io::{ErrorKind, Read, Write};
use std::{fs, io, str};

// Opens the file that a command names. (std opens no name that is not UTF-8.)
fn open<F: Files>(files: &F, name: &[u8]) -> io::Result<F::File> {
    match str::from_utf8(name) {
        Ok(path) => fs::open(files, path),
        Err(_) => Err(io::Error::from(ErrorKind::InvalidFilename)),
    }
}

// How many words a command has, its name among them.
pub fn words_of_command<E: Env>(env: &E) -> usize {
    let ends = |i: &usize| matches!(env.arg(*i, &mut []), Err(FillError::NotPresent));
    (0..usize::MAX).find(ends).unwrap_or(usize::MAX)
}

// Word i of a command: an empty one where it is missing, or longer than the buffer.
pub fn word_of_command<'a, E: Env>(env: &E, i: usize, word: &'a mut [u8]) -> &'a [u8]
    ensures { IsPrefixLen (length result.now) word.old }
{
    let n = env.arg(i, word).unwrap_or(0);
    &word[..n]
}

// The bytes of a file, as many as the buffer holds.
fn read_file<'a, F: Files>(files: &F, name: &[u8], buf: &'a mut [u8]) -> io::Result<&'a [u8]>
    ensures { IfOk result (λ read. IsPrefixLen (length read.now) buf.old) }
{
    let n = read_full(&mut open(files, name)?, buf)?;
    Ok(&buf[..n])
}

// A key from the file that word i of the command names: at most 17 bytes, so that a file of more than 16 shows. None where it cannot be
// read, and standard error is told why.
pub fn read_key<'a, S: Env + Files, W: Write>(
    system: &S,
    err: &mut W,
    i: usize,
    key: &'a mut [u8; 17],
) -> Option<&'a [u8]>
    ensures { IfSome result (λ k. IsPrefixLen (length k.now) key.old) }
{
    let mut word = [0u8; 4096];
    let name = word_of_command(system, i, &mut word);
    match read_file(system, name, key) {
        Ok(read) => Some(read),
        Err(why) => {
            told::failed(err, name, why);
            None
        }
    }
}

// Whether two keys have the 16 bytes that every frame asks for.
pub fn keys_fit(ck: &[u8], ik: &[u8]) -> bool
    ensures { result ≡ ((key_test 16 ck.now).passes && (key_test 16 ik.now).passes) }
{
    ck.len() == 16 && ik.len() == 16
}

// A body, put where a writer finds it: one byte more than a frame can hold is read, so that a longer body shows.
pub fn read_body<R: Read>(from: &mut R, frame: &mut [u8]) -> Result<usize, BrokenOff>
    requires { length frame.old ≡ 65539 }
    ensures ok { IfOk result (λ n. n ≤ 65522) }
    ensures err { IfErr result (λ e. e.bytes ≤ 65522) }
{
    read_full(from, &mut frame[13..65535])
}

// Where the first frame of a stream ends.
pub fn frame_end(stream: &[u8]) -> usize
    requires { 3 ≤ length stream.now }
    ensures { (result ≡ frame_end stream.now) × (17 ≤ result) × (result ≤ 65538) }
{
    let end = usize::from(u16::from_be_bytes([stream[1], stream[2]])) + 3;
    end.max(17)
}

// The next frame of a stream, and no byte of the one behind it; fewer where the stream ends.
pub fn read_frame<R: Read>(from: &mut R, frame: &mut [u8]) -> Result<usize, BrokenOff>
    requires { length frame.old ≡ 65538 }
    ensures ok { IfOk result (λ n. (n ≤ 65538) × (n ≤ frame_end frame.new)) }
    ensures err { IfErr result (λ e. (e.bytes ≤ 65538) × (e.bytes ≤ frame_end frame.new)) }
{
    let least = read_full(from, &mut frame[..17])?;
    if least < 17 {
        return Ok(least);
    }
    let end = frame_end(frame);
    // Where this read fails, the 17 bytes before it have come, too.
    let rest = read_full(from, &mut frame[17..end]).map_err(|e| BrokenOff {
        bytes: 17 + e.bytes,
        ..e
    })?;
    Ok(17 + rest)
}
