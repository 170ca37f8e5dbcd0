// Tags: starts, updates, closings and one-shots, as in generators.rt.
ghost use Rattle.std.specs.Prelude.{◌≡◌};
ghost use Rattle.capi_arrays.specs.Arrays.{stored_in};
ghost use Rattle.capi.specs.Tags.{closing_array, tag_array, two_closing, two_once};
ghost use Rattle.mac.specs.Calls.{finish_outcome-128, finish_outcome-256, once_outcome-128, once_outcome-256, once_outcome-EIA3, once_told, start_outcome-128, start_outcome-256, start_outcome-EIA3, strict_once_outcome-EIA3, strict_start_outcome-EIA3, tag_told, update_outcome, update_told};
ghost use Rattle.standard.specs.States.{formed-128, formed, tag_formed};
ghost use Rattle.mac.specs.Reading.{tagged_of};

use capi_arrays::{tag_array_of, tag_state_in};
use mac::{Mac128, Mac256};
use mac_registers::TagState;
use refusals::{ACCEPTED, Refusal, number_of};

// What a start hands back goes into the array: zeros, where it was refused.
fn put_start(state: &mut [u64; 21], start: Result<(TagState, usize), Refusal>) -> u32
    ensures { record { number = result; array = state.new } ≡ tag_array (tag_told (λ t. tagged_of t.0 t.1) start) }
{
    match start {
        Ok((s, count)) => {
            *state = tag_array_of(s, count);
            ACCEPTED
        }
        Err(refusal) => {
            *state = [0; 21];
            u32::from(refusal)
        }
    }
}

// A ZUC-128 tag state, or BAD_KEY, BAD_IV.
pub fn zuc128_tag_start(state: &mut [u64; 21], key: &[u8], iv: &[u8]) -> u32
    ensures { record { number = result; array = state.new } ≡ tag_array (start_outcome-128 key.now iv.now) }
{
    let start = mac::zuc128::new(key, iv);
    put_start(state, start.map(|mac| (mac.state, mac.count)))
}

// An EIA3 tag state, or BAD_KEY.
pub fn eia3_tag_start(
    state: &mut [u64; 21],
    count: u32,
    bearer: u8,
    direction: u8,
    key: &[u8],
) -> u32
    ensures { record { number = result; array = state.new } ≡ tag_array (start_outcome-EIA3 count bearer direction key.now) }
{
    let start = mac::eia3::new(count, bearer, direction, key);
    put_start(state, start.map(|mac| (mac.state, mac.count)))
}

// The same of a bearer and a direction as given, or BAD_KEY, BAD_FIELD.
pub fn eia3_tag_start_strict(
    state: &mut [u64; 21],
    count: u32,
    bearer: u8,
    direction: u8,
    key: &[u8],
) -> u32
    ensures { record { number = result; array = state.new } ≡ tag_array (strict_start_outcome-EIA3 count bearer direction key.now) }
{
    let start = mac::eia3::new_strict(count, bearer, direction, key);
    put_start(state, start.map(|mac| (mac.state, mac.count)))
}

// A ZUC-256 tag state of a width in bytes, or BAD_WIDTH, BAD_KEY, BAD_IV.
pub fn zuc256_tag_start(state: &mut [u64; 21], width: usize, key: &[u8], iv: &[u8]) -> u32
    ensures { record { number = result; array = state.new } ≡ tag_array (start_outcome-256 width key.now iv.now) }
{
    let start = mac::zuc256::new(width, key, iv);
    put_start(state, start.map(|mac| (mac.state, mac.count)))
}

// What an update answers and leaves goes into the array.
fn put_update(state: &mut [u64; 21], answer: Result<(), Refusal>, s: TagState, words: usize) -> u32
    ensures { record { number = result; array = state.new } ≡ tag_array (update_told answer (tagged_of s words)) }
{
    *state = tag_array_of(s, words);
    number_of(&answer)
}

// More bytes of a message, of ZUC-128 or EIA3, or BAD_STATE, SPENT.
pub fn zuc128_tag_update(state: &mut [u64; 21], msg: &[u8]) -> u32
    ensures { record { number = result; array = state.new } ≡ tag_array (update_outcome (tag_formed formed-128 (stored_in state.old)) (stored_in state.old) msg.now) }
{
    let mut mac = Mac128 {
        state: tag_state_in(*state),
        count: state[10] as usize,
    };
    let answer = mac::zuc128::update(&mut mac, msg);
    put_update(state, answer, mac.state, mac.count)
}

// More bytes of a message, of ZUC-256, or BAD_STATE, SPENT.
pub fn zuc256_tag_update(state: &mut [u64; 21], msg: &[u8]) -> u32
    ensures { record { number = result; array = state.new } ≡ tag_array (update_outcome (tag_formed formed (stored_in state.old)) (stored_in state.old) msg.now) }
{
    let mut mac = Mac256 {
        state: tag_state_in(*state),
        count: state[10] as usize,
    };
    let answer = mac::zuc256::update(&mut mac, msg);
    put_update(state, answer, mac.state, mac.count)
}

// What a closing or a one-shot of 32 bits answers goes into the tag's first word.
fn put_tag_32(answer: Result<u32, Refusal>, tag: &mut [u64; 2]) -> u32
    ensures { record { number = result; tag = tag.new } ≡ two_once (once_told 0 answer) }
{
    *tag = [u64::from(answer.unwrap_or(0)), 0];
    number_of(&answer)
}

// The tag of ZUC-128 or EIA3, and a state of zeros, or BAD_STATE, BAD_BITS, SPENT.
pub fn zuc128_tag_finish(state: &mut [u64; 21], tail: &[u8], bits: usize, tag: &mut [u64; 2]) -> u32
    ensures { record { number = result; tag = tag.new; array = state.new } ≡ closing_array (two_closing (finish_outcome-128 (stored_in state.old) tail.now bits)) }
{
    let mut mac = Mac128 {
        state: tag_state_in(*state),
        count: state[10] as usize,
    };
    let answer = mac::zuc128::finish(&mut mac, tail, bits);
    *state = tag_array_of(mac.state, mac.count);
    put_tag_32(answer, tag)
}

// The tag of ZUC-256, and a state of zeros, or BAD_STATE, BAD_BITS, SPENT.
pub fn zuc256_tag_finish(state: &mut [u64; 21], tail: &[u8], bits: usize, tag: &mut [u64; 2]) -> u32
    ensures { record { number = result; tag = tag.new; array = state.new } ≡ closing_array (finish_outcome-256 (stored_in state.old) tail.now bits) }
{
    let mut mac = Mac256 {
        state: tag_state_in(*state),
        count: state[10] as usize,
    };
    let answer = mac::zuc256::finish(&mut mac, tail, bits);
    *state = tag_array_of(mac.state, mac.count);
    *tag = answer.unwrap_or([0, 0]);
    number_of(&answer)
}

// A ZUC-128 tag at once, or BAD_KEY, BAD_IV, BAD_BITS, SPENT.
pub fn zuc128_tag(key: &[u8], iv: &[u8], msg: &[u8], bits: usize, tag: &mut [u64; 2]) -> u32
    ensures { record { number = result; tag = tag.new } ≡ two_once (once_outcome-128 key.now iv.now msg.now bits) }
{
    put_tag_32(mac::zuc128::compute(key, iv, msg, bits), tag)
}

// An EIA3 tag at once, or BAD_KEY, BAD_BITS, SPENT.
pub fn eia3_tag(
    count: u32,
    bearer: u8,
    direction: u8,
    key: &[u8],
    msg: &[u8],
    bits: usize,
    tag: &mut [u64; 2],
) -> u32
    ensures { record { number = result; tag = tag.new } ≡ two_once (once_outcome-EIA3 count bearer direction key.now msg.now bits) }
{
    put_tag_32(
        mac::eia3::compute(count, bearer, direction, key, msg, bits),
        tag,
    )
}

// The same of a bearer and a direction as given, or BAD_KEY, BAD_FIELD, BAD_BITS, SPENT.
pub fn eia3_tag_strict(
    count: u32,
    bearer: u8,
    direction: u8,
    key: &[u8],
    msg: &[u8],
    bits: usize,
    tag: &mut [u64; 2],
) -> u32
    ensures { record { number = result; tag = tag.new } ≡ two_once (strict_once_outcome-EIA3 count bearer direction key.now msg.now bits) }
{
    put_tag_32(
        mac::eia3::compute_strict(count, bearer, direction, key, msg, bits),
        tag,
    )
}

// A ZUC-256 tag at once, or BAD_WIDTH, BAD_KEY, BAD_IV, BAD_BITS, SPENT.
pub fn zuc256_tag(
    width: usize,
    key: &[u8],
    iv: &[u8],
    msg: &[u8],
    bits: usize,
    tag: &mut [u64; 2],
) -> u32
    ensures { record { number = result; tag = tag.new } ≡ once_outcome-256 width key.now iv.now msg.now bits }
{
    let answer = mac::zuc256::compute(width, key, iv, msg, bits);
    *tag = answer.unwrap_or([0, 0]);
    number_of(&answer)
}
