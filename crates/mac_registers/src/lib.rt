// The registers of a tag, for tags of 32, 64 and 128 bits.
#![tactic(auto)]

ghost use Rattle.std.specs.Prelude.{length, ◌≡◌, ◌+◌, ◌*◌, ◌/◌, ◌%◌, ◌^◌, ◌≤◌, ◌<◌};
ghost use Rattle.standard.specs.Bits.{M, bit_of, window};
ghost use Rattle.standard.specs.Generator.{word_at};
ghost use Rattle.standard.specs.Integrity.{T};
ghost use Rattle.standard.proofs.Held.{Ready};
ghost use Rattle.standard.specs.Notation.{listed, ◌⊕◌};
ghost use Rattle.standard.specs.States.{moved};
ghost use Rattle.zuc_turn.specs.InnerRun.{Low};
ghost use Rattle.zuc.specs.Reading.{held_of};
ghost use Rattle.mac_registers.specs.Stored.{key_of, key_words, stored_of, tag_of, tag_words};
ghost use Rattle.mac_registers.specs.Inner.{Holds, Width, bits_of};
ghost use Rattle.mac_registers.specs.InnerOpen.{AtRest, Stands, held_on, stored_at};

use mac_wide::{sum_64, sum_128};
use sums::{joined, sum_32};
use words::word_of;
use zuc::Zuc;
use zuc_bulk::{index_after, lay_state, state_of, words_on};
use zuc_turn::{Halves, Run};

pub mod forms;
pub mod sums;

// A tag in the making beside its generator: the key pair and the tag in 64-bit words (as many as the width asks, the others zero), the
// bytes that wait for a block with zeros after them, their count, and the tag's width in bytes.
#[derive(Clone, Copy, Default)]
pub struct TagOn<G> {
    pub g: G,
    pub key: [u64; 4],
    pub tag: [u64; 2],
    pub rem: [u8; 16],
    pub cnt: usize,
    pub width: usize,
}

// A generator that stands on a lent run: its registers in halves, and the index at which its cells will start.
#[derive(Clone, Copy)]
pub struct OnRun {
    pub h: Halves,
    pub start: usize,
}

impl OnRun {
    // A generator with its cells laid on a run, once a call.
    pub fn new(g: Zuc, run: &mut Run) -> OnRun
        requires { Ready (held_of g) }
        ensures rest { AtRest run.new.cells run.new.pairs result.h }
        ensures held { held_on run.new.cells result ≡ held_of g }
    {
        let h = lay_state(g, run);
        OnRun { h, start: g.start }
    }

    // As many words as the buffer holds, and the generator after them.
    pub fn draw(self, run: &mut Run, out: &mut [u32]) -> OnRun
        requires rest { AtRest run.old.cells run.old.pairs self.h }
        requires start_fits { self.start < 16 }
        ensures rest { AtRest run.new.cells run.new.pairs result.h }
        ensures held { held_on run.new.cells result ≡ moved (length out.old) (held_on run.old.cells self) }
        ensures words { out.new ≡ listed (word_at (held_on run.old.cells self).meaning) 0 (length out.old) }
    {
        let n = out.len();
        let h = words_on(run, self.h, out);
        OnRun {
            h,
            start: index_after(self.start, n),
        }
    }
}

// Between calls.
pub type TagState = TagOn<Zuc>;

// Inside a call.
pub type Open = TagOn<OnRun>;

impl<G: Copy> TagOn<G> {
    // The same tag beside another generator.
    fn beside<H>(self, g: H) -> TagOn<H>
        ensures { result ≡ record { g = g; key = self.key; tag = self.tag; rem = self.rem; cnt = self.cnt; width = self.width } }
    {
        let TagOn {
            key,
            tag,
            rem,
            cnt,
            width,
            ..
        } = self;
        TagOn {
            g,
            key,
            tag,
            rem,
            cnt,
            width,
        }
    }
}

impl TagState {
    // The state with its generator on a run.
    pub fn lay(self, run: &mut Run) -> Open
        requires { Holds (stored_of self) }
        ensures { Stands run.new.cells run.new.pairs result (stored_of self) }
    {
        self.beside(OnRun::new(self.g, run))
    }
}

impl Open {
    // The state, with its cells taken back from those at the front of a run.
    pub fn taken(self, run: &[u32]) -> TagState
        requires room { 16 ≤ length run.now }
        requires halves { Low self.g.h }
        requires start_fits { self.g.start < 16 }
        ensures { stored_of result ≡ stored_at run.now self }
    {
        self.beside(state_of(run, self.g.h, self.g.start))
    }
}

// What is open, and the place in the message up to which it has taken the bytes in.
#[derive(Clone, Copy)]
pub struct Moved {
    pub o: Open,
    pub at: usize,
}

// Four bytes of a block as one word, highest first.
fn word_at(block: &[u8], at: usize) -> u32
    requires { at + 4 ≤ length block.now }
    ensures { result ≡ window (M block.now) (at * 8) 32 }
{
    word_of(block[at], block[at + 1], block[at + 2], block[at + 3])
}

pub fn wide_at(block: &[u8], at: usize) -> u64
    requires { at + 8 ≤ length block.now }
    ensures { result ≡ window (M block.now) (at * 8) 64 }
{
    joined(word_at(block, at), word_at(block, at + 4))
}

// The tag with the key pair's windows at the set bits of a block. No method of TagOn: a loop over drawn words has no generator at hand.
// A width is a number, here and below, and 16 what is left: a state that C lends may hold any, and is packed again as it came.
pub fn tag_with(width: usize, key: [u64; 4], tag: [u64; 2], block: &[u8]) -> [u64; 2]
    requires width_fits { Width width }
    requires block_fits { width ≤ length block.now }
    ensures { result ≡ tag_words width (tag_of width tag ⊕ T (width * 8) (bit_of (width * 8 + width * 8) (key_of width key)) 0 (M block.now) (width * 8)) }
{
    match width {
        4 => [tag[0] ^ (sum_32(key[0], block, 0) as u64), 0],
        8 => [tag[0] ^ sum_64([key[0], key[1]], block), 0],
        _ => {
            let sum = sum_128(key, block);
            [tag[0] ^ sum[0], tag[1] ^ sum[1]]
        }
    }
}

// The key pair moved up by half, with fresh words in its low half.
pub fn key_on(width: usize, key: [u64; 4], words: [u64; 2]) -> [u64; 4]
    requires width_fits { Width width }
    requires tag_fits { tag_of width words < 2 ^ (width * 8) }
    ensures { result ≡ key_words width (key_of width key * 2 ^ (width * 8) % 2 ^ (width * 8 + width * 8) + tag_of width words) }
{
    match width {
        4 => [
            joined((key[0] % 0x1_0000_0000) as u32, words[0] as u32),
            0,
            0,
            0,
        ],
        8 => [key[1], words[0], 0, 0],
        _ => [key[2], key[3], words[0], words[1]],
    }
}

// The keystream bits of a tag's width out of words drawn before, in the words of a tag.
pub fn fresh_at(width: usize, words: &[u32], at: usize) -> [u64; 2]
    requires width_fits { Width width }
    requires words_fit { at + width / 4 ≤ length words.now }
    ensures { result ≡ tag_words width (window (bits_of words.now) (at * 32) (width * 8)) }
{
    match width {
        4 => [words[at] as u64, 0],
        8 => [joined(words[at], words[at + 1]), 0],
        _ => [
            joined(words[at], words[at + 1]),
            joined(words[at + 2], words[at + 3]),
        ],
    }
}

// A key pair out of words drawn before: its halves are moved in one after the other.
pub fn key_at(width: usize, words: &[u32], at: usize) -> [u64; 4]
    requires width_fits { Width width }
    requires words_fit { at + width / 4 + width / 4 ≤ length words.now }
    ensures { result ≡ key_words width (window (bits_of words.now) (at * 32) (width * 8 + width * 8)) }
{
    let high = fresh_at(width, words, at);
    let half = key_on(width, [0u64; 4], high);
    let low = fresh_at(width, words, at + width / 4);
    key_on(width, half, low)
}
