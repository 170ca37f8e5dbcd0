// ZUC-128 tags. An EIA3 tag is updated and closed by the same calls.
ghost use Rattle.std.specs.Prelude.{◌≡◌};
ghost use Rattle.mac.specs.Calls.{finish_outcome-128, finish_told, once_outcome-128, once_told, start_outcome-128, tag_told, update_outcome, update_told};
ghost use Rattle.mac.specs.Reading.{tagged_of-128};
ghost use Rattle.standard.specs.States.{formed-128, tag_formed};

use super::{Mac128, begin_from, is_formed_128, update_state};
use mac_registers::forms::zero_state;
use mac_tagging::calls::{finish_128, once_128};
use refusals::Refusal;
use words::{bits_fit, has_left};

// A tag state, or a refusal: BadKey for a key, BadIv for an IV that is not 16 bytes.
pub fn new(key: &[u8], iv: &[u8]) -> Result<Mac128, Refusal>
    ensures { tag_told tagged_of-128 result ≡ start_outcome-128 key.now iv.now }
{
    begin_from(keystream::zuc128::new(key, iv))
}

// Takes in more bytes of the message; or BadState, or Spent for more words than are left, before anything moves.
pub fn update(mac: &mut Mac128, message: &[u8]) -> Result<(), Refusal>
    ensures { update_told result (tagged_of-128 mac.new) ≡ update_outcome (tag_formed formed-128 (tagged_of-128 mac.old)) (tagged_of-128 mac.old) message.now }
{
    if !is_formed_128(mac.state, mac.count) {
        return Err(Refusal::BadState);
    }
    update_state(&mut mac.state, &mut mac.count, message)
}

// The tag, of l bits more, and a state of zeros; or BadState, BadBits for more bits than are lent, Spent, in this order, before anything moves.
pub fn finish(mac: &mut Mac128, tail: &[u8], l: usize) -> Result<u32, Refusal>
    ensures { finish_told 0 result (tagged_of-128 mac.new) ≡ finish_outcome-128 (tagged_of-128 mac.old) tail.now l }
{
    let s = mac.state;
    if !is_formed_128(s, mac.count) {
        return Err(Refusal::BadState);
    }
    if !bits_fit(l, tail.len()) {
        return Err(Refusal::BadBits);
    }
    if !has_left(mac.count, mac_counts::to_close_128(s.cnt, l)) {
        return Err(Refusal::Spent);
    }
    let tag = finish_128(s, tail, l);
    *mac = Mac128 {
        state: zero_state(),
        count: 0,
    };
    Ok(tag)
}

// A whole message at once, or BadKey, BadIv, BadBits, Spent, in this order.
pub fn compute(key: &[u8], iv: &[u8], message: &[u8], l: usize) -> Result<u32, Refusal>
    ensures { once_told 0 result ≡ once_outcome-128 key.now iv.now message.now l }
{
    if key.len() != 16 {
        return Err(Refusal::BadKey);
    }
    if iv.len() != 16 {
        return Err(Refusal::BadIv);
    }
    if !bits_fit(l, message.len()) {
        return Err(Refusal::BadBits);
    }
    if !has_left(0, mac_counts::by_tag_128(l)) {
        return Err(Refusal::Spent);
    }
    Ok(once_128(zuc_loading::zuc128::load(key, iv), message, l))
}
