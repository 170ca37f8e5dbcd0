// The public keystream: starts (in the modules), a draw, and a buffer of words.
#![tactic(auto)]

ghost use Rattle.std.specs.Prelude.{◌≡◌};
ghost use Rattle.keystream.specs.Draws.{draw_told, draw_outcome, fill_told, fill_outcome};
ghost use Rattle.standard.proofs.Cells.{Cells};
ghost use Rattle.standard.specs.Generator.{started};
ghost use Rattle.standard.specs.States.{from_start, from_zero};
ghost use Rattle.zuc.specs.Reading.{counted_of, loaded_of};

use refusals::Refusal;
use words::has_left;
use zuc::{Generator, Loaded, is_formed};

pub mod eea3;
pub mod zuc128;
pub mod zuc256;

// A draw of a generator by value: its answer, and the state after it, the caller's where it was refused.
#[derive(Clone, Copy)]
pub struct Drew {
    pub answer: Result<u32, Refusal>,
    pub state: Generator,
}

// Loaded cells, brought through start-up: a generator that has drawn nothing.
fn started_from(loaded: Loaded) -> Generator
    requires { Cells loaded.s }
    ensures { counted_of result ≡ from_start (from_zero (started (loaded_of loaded))) }
{
    Generator {
        z: zuc_bulk::startup::init(loaded),
        count: 0,
    }
}

// The next word of the keystream, or BadState, Spent: then the generator stays as it came.
#[tactic(auto, unfolding(crate::specs::Draws::draw_outcome, standard::specs::Refusals::tested))]
pub fn generate_in_place(g: &mut Generator) -> Result<u32, Refusal>
    ensures { draw_told result g.new ≡ draw_outcome (counted_of g.old) }
{
    if !is_formed(*g) {
        return Err(Refusal::BadState);
    }
    if !has_left(g.count, 1) {
        return Err(Refusal::Spent);
    }
    let drawn = zuc::draw(g.z);
    g.z = drawn.next;
    g.count += 1;
    Ok(drawn.word)
}

// The same of a generator by value.
pub fn generate(state: Generator) -> Drew
    ensures { draw_told result.answer result.state ≡ draw_outcome (counted_of state) }
{
    let mut g = state;
    let answer = generate_in_place(&mut g);
    Drew { answer, state: g }
}

// The next words of the keystream, as many as the buffer holds, or BadState, Spent: then generator and buffer stay as they came.
#[tactic(auto, unfolding(crate::specs::Draws::fill_outcome, standard::specs::Refusals::tested))]
pub fn fill(g: &mut Generator, buffer: &mut [u32]) -> Result<(), Refusal>
    ensures { fill_told result g.new buffer.new ≡ fill_outcome (counted_of g.old) buffer.old }
{
    let n = buffer.len();
    if !is_formed(*g) {
        return Err(Refusal::BadState);
    }
    if !has_left(g.count, n) {
        return Err(Refusal::Spent);
    }
    g.z = zuc_bulk::words_into(g.z, buffer);
    g.count += n;
    Ok(())
}
