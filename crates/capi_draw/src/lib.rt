// A draw in the array that the caller lends: one cell, the registers, the start index and the count are written, and nothing is copied out.
#![tactic(auto)]

ghost use Rattle.std.specs.Prelude.{leb, length, ◌≡◌, ◌+◌, ◌<◌};
ghost use Rattle.capi_arrays.specs.Arrays.{array_of, held_from, held_in};
ghost use Rattle.capi_draw.specs.Turns.{put_into, turn_of};
ghost use Rattle.standard.proofs.Held.{Ready};
ghost use Rattle.standard.specs.Generator.{word};
ghost use Rattle.standard.specs.States.{drawn_on, generator_formed, limit, words_to_draw};
ghost use Rattle.standard.specs.Notation.{◌⟨◌⟩};

use zuc::{cells_formed, f, new_cell, reorganized};

// The words of a start (request 2026-09), as a word of the array. A number of its own beside `words::LIMIT`: an edit sets this one alone.
const LIMIT: u32 = 134217730;

// What a draw makes: the new cell, the registers, and the word.
#[derive(Clone, Copy)]
pub struct Turn {
    pub cell: u32,
    pub r1: u32,
    pub r2: u32,
    pub word: u32,
}

// Whether cells, index and count are in range. The length is promised for a caller's proof: of what lies behind a reference none is handed over.
pub fn is_formed(a: &[u32; 20]) -> bool
    ensures is { result ≡ generator_formed (held_in a.now) }
    ensures full { length a.now ≡ 20 }
{
    if !cells_formed(a) {
        return false;
    }
    if 15 < a[18] {
        return false;
    }
    a[19] <= LIMIT
}

// Whether a word is left of its start.
pub fn has_word(a: &[u32; 20]) -> bool
    ensures { result ≡ leb ((held_in a.now).count + words_to_draw) limit }
{
    a[19] < LIMIT
}

// A draw of the state whose cells start at i: it only reads.
fn turned(a: &[u32; 20], i: usize) -> Turn
    requires { Ready (held_from i a.now) }
    ensures { result ≡ turn_of (held_from i a.now).meaning }
{
    let cell = new_cell(a, i);
    let x = reorganized(a, i, cell);
    let out = f(x.x0, x.x1, x.x2, a[16], a[17]);
    Turn {
        cell,
        r1: out.r1,
        r2: out.r2,
        word: out.w ^ x.x3,
    }
}

// A draw put in place: the new cell where the oldest was, the start index one further, and the count one more.
fn put(a: &mut [u32], i: usize, t: Turn)
    requires { (length a.old ≡ 20) × (i < 16) × (a.old ⟨ 19 ⟩ < limit) }
    ensures { a.new ≡ array_of (record { held = put_into (held_from i a.old) t; count = a.old ⟨ 19 ⟩ + 1 }) }
{
    let count = a[19] + 1;
    a[i] = t.cell;
    a[16] = t.r1;
    a[17] = t.r2;
    a[18] = ((i + 1) % 16) as u32;
    a[19] = count;
}

// The next word.
pub fn draw_in(a: &mut [u32; 20]) -> u32
    requires ready { Ready (held_in a.old).held }
    requires left { (held_in a.old).count < limit }
    ensures word { result ≡ word (held_in a.old).held.meaning }
    ensures array { a.new ≡ array_of (drawn_on 1 (held_in a.old)) }
{
    let i = a[18] as usize;
    let t = turned(a, i);
    put(a, i, t);
    t.word
}
