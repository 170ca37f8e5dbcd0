// ZUC-256 tags of 4, 8 and 16 bytes. Calls of the same names as ZUC-128's, and not one generic call: states are of two types, so that no
// tag is closed by the other's rule, and what both do stands once in `update_state` and in mac_tagging.
ghost use Rattle.std.specs.Prelude.{◌≡◌};
ghost use Rattle.mac.specs.Calls.{finish_outcome-256, finish_told, no_words, once_outcome-256, once_told, start_outcome-256, tag_told, update_outcome, update_told};
ghost use Rattle.mac.specs.Reading.{tagged_of-256};
ghost use Rattle.standard.specs.States.{formed, tag_formed};

use super::{Mac256, is_formed_256, update_state};
use mac_registers::forms::zero_state;
use mac_tagging::calls::{finish_256, once_256, start_256};
use refusals::Refusal;
use words::{bits_fit, has_left};

// A tag state of a width in bytes, or a refusal: BadWidth for a width that is not 4, 8 or 16, BadKey for a key that is not 32
// bytes, BadIv for an IV that is not 23.
pub fn new(width: usize, key: &[u8], iv: &[u8]) -> Result<Mac256, Refusal>
    ensures { tag_told tagged_of-256 result ≡ start_outcome-256 width key.now iv.now }
{
    let g = keystream::zuc256::new_with_d(width, key, iv)?;
    Ok(Mac256 {
        state: start_256(width, g.z),
        count: width / 4 * 3,
    })
}

// Takes in more bytes of the message; or BadState, or Spent for more words than are left, before anything moves.
pub fn update(mac: &mut Mac256, message: &[u8]) -> Result<(), Refusal>
    ensures { update_told result (tagged_of-256 mac.new) ≡ update_outcome (tag_formed formed (tagged_of-256 mac.old)) (tagged_of-256 mac.old) message.now }
{
    if !is_formed_256(mac.state, mac.count) {
        return Err(Refusal::BadState);
    }
    update_state(&mut mac.state, &mut mac.count, message)
}

// The tag, of l bits more, and a state of zeros; or BadState, BadBits for more bits than are lent, Spent, in this order, before anything moves.
// A tag of 32 or 64 bits is the first word, and the second is 0; of one of 128 bits the first word is the high half.
pub fn finish(mac: &mut Mac256, tail: &[u8], l: usize) -> Result<[u64; 2], Refusal>
    ensures { finish_told no_words result (tagged_of-256 mac.new) ≡ finish_outcome-256 (tagged_of-256 mac.old) tail.now l }
{
    let s = mac.state;
    if !is_formed_256(s, mac.count) {
        return Err(Refusal::BadState);
    }
    if !bits_fit(l, tail.len()) {
        return Err(Refusal::BadBits);
    }
    if !has_left(mac.count, mac_counts::to_close_256(s.width, s.cnt, l)) {
        return Err(Refusal::Spent);
    }
    let tag = finish_256(s, tail, l);
    *mac = Mac256 {
        state: zero_state(),
        count: 0,
    };
    Ok(tag)
}

// A whole message at once, or BadWidth, BadKey, BadIv, BadBits, Spent, in this order. ZUC-256 has no fields to refuse.
pub fn compute(
    width: usize,
    key: &[u8],
    iv: &[u8],
    message: &[u8],
    l: usize,
) -> Result<[u64; 2], Refusal>
    ensures { once_told no_words result ≡ once_outcome-256 width key.now iv.now message.now l }
{
    let g = keystream::zuc256::new_with_d(width, key, iv)?;
    if !bits_fit(l, message.len()) {
        return Err(Refusal::BadBits);
    }
    if !has_left(0, mac_counts::by_tag_256(width, l)) {
        return Err(Refusal::Spent);
    }
    Ok(once_256(width, g.z, message, l))
}
