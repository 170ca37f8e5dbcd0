// A sealed block two vendors can read (request 2026-01): a frame is written and read in the buffer that the caller lends, and in no other.
#![tactic(auto)]

ghost use Rattle.std.specs.Prelude.{IfOk, ◌≡◌, ◌≤◌, ◌<◌, ◌+◌, ◌^◌, length};
ghost use Rattle.frame.specs.Inner.{Sealable, Taken};
ghost use Rattle.frame.specs.Outcome.{fields_of, read_outcome, read_tests, read_told, write_outcome, write_tests, written_told};
ghost use Rattle.refusals.specs.Numbers.{answer_number};
ghost use Rattle.standard.specs.Bits.{bytes_of};
ghost use Rattle.standard.specs.Frame.{body_fits, body_in, fields_in, four_at, frame_of, head_of, masked_body, tag_over, two_at};
ghost use Rattle.standard.specs.Refusals.{accepted, tested};

use refusals::Refusal;
use words::{fields_fit, keep_high, word_of};

// What a frame carries beside its body.
#[derive(Clone, Copy, Debug, PartialEq, Eq)]
pub struct FrameFields {
    pub count: u32,
    pub bearer: u8,
    pub direction: u8,
    pub bits: u32,
}

// Whether a body has the bytes of so many bits, and no bit past them set in its last byte.
fn body_fits(bits: u32, body: &[u8]) -> bool
    ensures { result ≡ body_fits bits body.now }
{
    let l = bits as usize;
    let n = body.len();
    if l.div_ceil(8) != n {
        return false;
    }
    if l % 8 == 0 {
        return true;
    }
    let last = body[n - 1];
    keep_high(last, l % 8) == last
}

// The tests of a writer, in their order.
fn writable(ck: &[u8], ik: &[u8], f: FrameFields, frame: &[u8]) -> Result<(), Refusal>
    ensures { answer_number result ≡ tested (write_tests ck.now ik.now (fields_of f) frame.now) (λ n. n) accepted }
{
    if ck.len() != 16 {
        return Err(Refusal::BadKey);
    }
    if ik.len() != 16 {
        return Err(Refusal::BadKey);
    }
    let n = frame.len();
    if n < 17 {
        return Err(Refusal::BadFrame);
    }
    if 65538 < n {
        return Err(Refusal::BadLength);
    }
    if !fields_fit(f.bearer, f.direction) {
        return Err(Refusal::BadField);
    }
    let end = n - 4;
    if !body_fits(f.bits, &frame[13..end]) {
        return Err(Refusal::BadBody);
    }
    Ok(())
}

// A number of two bytes at a place, and one of four.
fn two_at(frame: &[u8], i: usize) -> u32
    requires { i + 2 ≤ length frame.now }
    ensures { result ≡ two_at frame.now i }
{
    word_of(0, 0, frame[i], frame[i + 1])
}

fn four_at(frame: &[u8], i: usize) -> u32
    requires { i + 4 ≤ length frame.now }
    ensures { result ≡ four_at frame.now i }
{
    word_of(frame[i], frame[i + 1], frame[i + 2], frame[i + 3])
}

fn fields_in(frame: &[u8]) -> FrameFields
    requires { 17 ≤ length frame.now }
    ensures { fields_of result ≡ fields_in frame.now }
{
    let count = four_at(frame, 3);
    let bits = four_at(frame, 9);
    FrameFields {
        count,
        bearer: frame[7],
        direction: frame[8],
        bits,
    }
}

// EIA3 over a masked body.
fn tag_over(ik: &[u8], f: FrameFields, body: &[u8]) -> u32
    requires { Sealable ik.now (fields_of f) body.now }
    ensures { result ≡ tag_over ik.now (fields_of f) body.now }
{
    let l = f.bits as usize;
    mac::eia3::compute_strict(f.count, f.bearer, f.direction, ik, body, l).unwrap_or(0)
}

// A body masked, or, done again, unmasked.
fn mask_body(ck: &[u8], f: FrameFields, body: &mut [u8])
    requires { Sealable ck.now (fields_of f) body.old }
    ensures { body.new ≡ masked_body ck.now (fields_of f) body.old }
{
    let l = f.bits as usize;
    // Nothing is refused of what can be sealed.
    let _ = mask::eea3::mask_clean_strict(f.count, f.bearer, f.direction, ck, body, l);
}

// The bytes before a body of n bytes.
fn head(f: FrameFields, n: u32) -> [u8; 13]
    requires { n ≤ 65521 }
    ensures { result ≡ head_of (fields_of f) n }
{
    let [_, _, n2, n3] = (n + 14).to_be_bytes();
    let [c0, c1, c2, c3] = f.count.to_be_bytes();
    let [l0, l1, l2, l3] = f.bits.to_be_bytes();
    [
        1,
        n2,
        n3,
        c0,
        c1,
        c2,
        c3,
        f.bearer,
        f.direction,
        l0,
        l1,
        l2,
        l3,
    ]
}

// Masks the body where it lies, and fills in every byte beside it.
fn seal(ck: &[u8], ik: &[u8], f: FrameFields, frame: &mut [u8])
    requires { Taken ck.now ik.now (fields_of f) frame.old }
    ensures { frame.new ≡ frame_of ck.now ik.now (fields_of f) (body_in frame.old) }
{
    let n = frame.len();
    let end = n - 4;
    mask_body(ck, f, &mut frame[13..end]);
    let tag = tag_over(ik, f, &frame[13..end]);
    frame[end..n].copy_from_slice(&tag.to_be_bytes());
    frame[0..13].copy_from_slice(&head(f, (n - 17) as u32));
}

// Finds the plain body at byte 13, masks it there and fills in every other byte; or BadKey, BadFrame, BadLength, BadField, BadBody, in this order.
pub fn write(ck: &[u8], ik: &[u8], f: FrameFields, frame: &mut [u8]) -> Result<(), Refusal>
    ensures { written_told result frame.new ≡ write_outcome ck.now ik.now (fields_of f) frame.old }
{
    writable(ck, ik, f, frame)?;
    seal(ck, ik, f, frame);
    Ok(())
}

// The fields, past the tests of a reader, in their order. The tag is held against EIA3's as one number: no byte of it ends the comparison.
fn readable(ck: &[u8], ik: &[u8], frame: &[u8]) -> Result<FrameFields, Refusal>
    ensures number { answer_number result ≡ tested (read_tests ck.now ik.now frame.now) (λ n. n) accepted }
    ensures fields { IfOk result (λ f. (fields_of f ≡ fields_in frame.now) × (f.bits < 2 ^ 32)) }
{
    if ck.len() != 16 {
        return Err(Refusal::BadKey);
    }
    if ik.len() != 16 {
        return Err(Refusal::BadKey);
    }
    let n = frame.len();
    if n < 17 {
        return Err(Refusal::BadFrame);
    }
    if frame[0] != 1 {
        return Err(Refusal::BadFrame);
    }
    if two_at(frame, 1) as usize != n - 3 {
        return Err(Refusal::BadLength);
    }
    let f = fields_in(frame);
    if !fields_fit(f.bearer, f.direction) {
        return Err(Refusal::BadField);
    }
    let end = n - 4;
    if !body_fits(f.bits, &frame[13..end]) {
        return Err(Refusal::BadBody);
    }
    if four_at(frame, end) != tag_over(ik, f, &frame[13..end]) {
        return Err(Refusal::BadTag);
    }
    Ok(f)
}

// Checks the tag first; then leaves the plain body at byte 13, touches no other byte and answers the fields; or BadKey, BadFrame, BadLength,
// BadField, BadBody, BadTag, in this order.
pub fn read(ck: &[u8], ik: &[u8], frame: &mut [u8]) -> Result<FrameFields, Refusal>
    ensures { read_told result frame.new ≡ read_outcome ck.now ik.now frame.old }
{
    let fields = readable(ck, ik, frame)?;
    let end = frame.len() - 4;
    mask_body(ck, fields, &mut frame[13..end]);
    Ok(fields)
}
