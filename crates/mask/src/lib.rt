// Masking in place by bit length (the crate's internal/stream_cipher.rs), in the crate's mode and in clean mode; EEA3 in one call is a module.
#![tactic(auto)]

ghost use Rattle.std.specs.Prelude.{◌≡◌, ◌≤◌, ◌*◌, ◌+◌, length};
ghost use Rattle.mask.specs.Inner.{Enough, Reaches, cleared, end_of, zeroed};
ghost use Rattle.mask.specs.Modes.{mask_outcome};
ghost use Rattle.mask.specs.Outcome.{told, crate_outcome, clean_outcome};
ghost use Rattle.standard.specs.Confidentiality.{mask_clean};
ghost use Rattle.standard.proofs.Cells.{Cells};
ghost use Rattle.standard.proofs.Held.{Ready};
ghost use Rattle.standard.specs.Generator.{after, started, word_at};
ghost use Rattle.standard.specs.Notation.{each_from};
ghost use Rattle.standard.specs.States.{moved};
ghost use Rattle.zuc.specs.Reading.{counted_of, held_of, loaded_of};
ghost use Rattle.zuc_turn.specs.InnerRun.{Laid, Low, Standing, state_at};

use mask_bulk::mask_on;
use refusals::Refusal;
use words::keep_high;
use zuc::{Generator, Loaded, Zuc};
use zuc_bulk::startup::begin;
use zuc_bulk::{index_after, lay_state, state_of};
use zuc_turn::{Halves, Run};

pub mod eea3;

// Zeroes from a place on.
fn zero_from(buf: &mut [u8], from: usize)
    requires { from ≤ length buf.old }
    ensures { buf.new ≡ each_from (zeroed from) 0 buf.old }
{
    buf[from..].fill(0);
}

// Keeps the bytes before byte q and its k high bits, and zeroes what follows.
fn keep_bits(buf: &mut [u8], q: usize, k: usize)
    requires { k ≤ 8 }
    ensures { buf.new ≡ each_from (cleared (q * 8 + k)) 0 buf.old }
{
    if q < buf.len() {
        let high = keep_high(buf[q], k);
        zero_from(buf, q + 1);
        buf[q] = high;
    }
}

// How far a mask reaches: how many high bits of byte floor(bits/8) are kept, how many bytes are masked, and how many words drawn.
#[derive(Clone, Copy)]
struct Reach {
    kept: usize,
    to: usize,
    drawn: usize,
}

// Clean mode keeps no bit past the length and masks the bytes that the bits reach into; crate mode leaves a byte masked whose first bit is
// the first past the length, and goes by the n bytes lent. Which mode it is stays a bool: a closure would pass through three functions to
// stand for these two branches.
fn reach_of(clean: bool, bits: usize, n: usize) -> Reach
    ensures { Reaches clean bits n result }
{
    let part = bits % 8;
    if clean {
        return Reach {
            kept: part,
            to: bits / 8 + (part + 7) / 8,
            drawn: bits / 32 + (bits % 32 + 31) / 32,
        };
    }
    Reach {
        kept: (part + 7) % 8 + 1,
        to: n,
        drawn: n / 4 + 1,
    }
}

// Both modes' mask, on a run that stands at 0.
fn mask_standing(run: &mut Run, start: Halves, buf: &mut [u8], bits: usize, reach: Reach) -> Halves
    requires laid { Laid run.old.cells run.old.pairs 0 }
    requires halves { Low start }
    requires enough { Enough (length buf.old) bits reach }
    ensures state { Standing run.new.cells run.new.pairs 0 result (after reach.drawn (state_at run.old.cells 0 start)) }
    ensures bytes { buf.new ≡ mask_clean (word_at (state_at run.old.cells 0 start)) (end_of bits reach) buf.old }
{
    let to = reach.to;
    let h = mask_on(run, start, &mut buf[..to], reach.drawn);
    keep_bits(buf, bits / 8, reach.kept);
    h
}

// The mask by the words of a state, and the state after it.
fn mask_held(z: Zuc, buf: &mut [u8], bits: usize, reach: Reach) -> Zuc
    requires ready { Ready (held_of z) }
    requires enough { Enough (length buf.old) bits reach }
    ensures state { held_of result ≡ moved reach.drawn (held_of z) }
    ensures bytes { buf.new ≡ mask_clean (word_at (held_of z).meaning) (end_of bits reach) buf.old }
{
    let mut run = Run::new();
    let laid = lay_state(z, &mut run);
    let h = mask_standing(&mut run, laid, buf, bits, reach);
    state_of(&run.cells, h, index_after(z.start, reach.drawn))
}

// The mask by the words of what start-up makes of loaded cells; the state after it is nobody's.
fn mask_loaded(loaded: Loaded, buf: &mut [u8], bits: usize, reach: Reach)
    requires cells { Cells loaded.s }
    requires enough { Enough (length buf.old) bits reach }
    ensures { buf.new ≡ mask_clean (word_at (started (loaded_of loaded))) (end_of bits reach) buf.old }
{
    let mut run = Run::new();
    let laid = begin(loaded, &mut run);
    mask_standing(&mut run, laid, buf, bits, reach);
}

// Both modes: the tests, and then the mask. The words drawn, or BadState, BadBits, Spent, in this order: then state and buffer stay as they came.
fn mask(clean: bool, state: &mut Generator, buf: &mut [u8], bits: usize) -> Result<usize, Refusal>
    ensures { told result state.new buf.new ≡ mask_outcome clean (counted_of state.old) bits buf.old }
{
    if !zuc::is_formed(*state) {
        return Err(Refusal::BadState);
    }
    if !words::bits_fit(bits, buf.len()) {
        return Err(Refusal::BadBits);
    }
    let reach = reach_of(clean, bits, buf.len());
    let drawn = reach.drawn;
    if !words::has_left(state.count, drawn) {
        return Err(Refusal::Spent);
    }
    state.z = mask_held(state.z, buf, bits, reach);
    state.count += drawn;
    Ok(drawn)
}

// As the crate does.
pub fn mask_crate(state: &mut Generator, buf: &mut [u8], bits: usize) -> Result<usize, Refusal>
    ensures { told result state.new buf.new ≡ crate_outcome (counted_of state.old) bits buf.old }
{
    mask(false, state, buf, bits)
}

// With every bit past the length zeroed.
pub fn mask_clean(state: &mut Generator, buf: &mut [u8], bits: usize) -> Result<usize, Refusal>
    ensures { told result state.new buf.new ≡ clean_outcome (counted_of state.old) bits buf.old }
{
    mask(true, state, buf, bits)
}
