// Tags: ZUC-128 and EIA3 of 32 bits, ZUC-256 of 32, 64 and 128. The calls are in the modules, what they share is here.
#![tactic(auto)]

ghost use Rattle.std.specs.Prelude.{true, ◌≡◌};
ghost use Rattle.keystream.specs.Starts.{start_told};
ghost use Rattle.mac.specs.Calls.{tag_told, update_outcome, update_told};
ghost use Rattle.mac.specs.Inner.{Live, Within, begun-128};
ghost use Rattle.mac.specs.Reading.{tagged_of, tagged_of-128};
ghost use Rattle.standard.specs.States.{formed, formed-128, tag_formed};

use mac_registers::TagState;
use mac_registers::forms::is_formed;
use mac_tagging::calls::start_128;
use refusals::Refusal;
use words::{LIMIT, has_left};
use zuc::Generator;

pub mod eia3;
pub mod zuc128;
pub mod zuc256;

// The state of a ZUC-128 or EIA3 tag, and that of a ZUC-256 tag: two types, so that neither is closed by the other's rule unawares. One type
// with a marker would say no less and need a marker type for each: no plainer.
// Beside each, how many words its start has drawn (request 2026-09).
#[derive(Clone, Copy, Default)]
pub struct Mac128 {
    pub state: TagState,
    pub count: usize,
}

#[derive(Clone, Copy, Default)]
pub struct Mac256 {
    pub state: TagState,
    pub count: usize,
}

// Whether a state is well formed, and its count within the limit: then it holds a tag in the making.
fn is_formed_256(state: TagState, count: usize) -> bool
    ensures formed { result ≡ tag_formed formed (tagged_of state count) }
    ensures within { result ≡ true → Within (tagged_of state count) }
{
    is_formed(state) && count <= LIMIT
}

// And of 4 bytes.
fn is_formed_128(state: TagState, count: usize) -> bool
    ensures formed { result ≡ tag_formed formed-128 (tagged_of state count) }
    ensures within { result ≡ true → Within (tagged_of state count) }
{
    state.width == 4 && is_formed_256(state, count)
}

// What both kinds of update do once their state was found well formed.
fn update_state(state: &mut TagState, count: &mut usize, message: &[u8]) -> Result<(), Refusal>
    requires { Within (tagged_of state.old count.old) }
    ensures { update_told result (tagged_of state.new count.new) ≡ update_outcome true (tagged_of state.old count.old) message.now }
{
    let drawn = mac_counts::to_update(state.width, state.cnt, message.len());
    if !has_left(*count, drawn) {
        return Err(Refusal::Spent);
    }
    *state = mac_tagging::calls::update(*state, message);
    *count += drawn;
    Ok(())
}

// A tag state from a start of the keystream, of ZUC-128 or of EIA3.
fn begin_from(start: Result<Generator, Refusal>) -> Result<Mac128, Refusal>
    requires { Live (start_told start) }
    ensures { tag_told tagged_of-128 result ≡ begun-128 (start_told start) }
{
    let g = start?;
    Ok(Mac128 {
        state: start_128(g.z),
        count: 2,
    })
}
