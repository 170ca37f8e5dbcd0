// What a call does with a tag: cells are laid on a run once, and taken back at most once.
ghost use Rattle.std.specs.Prelude.{length, ◌≡◌, ◌*◌, ◌≤◌, ◌<◌, ◌+◌};
ghost use Rattle.standard.proofs.Cells.{Cells};
ghost use Rattle.standard.proofs.Held.{Ready};
ghost use Rattle.standard.specs.Generator.{started};
ghost use Rattle.standard.specs.States.{from_zero};
ghost use Rattle.zuc.specs.Reading.{held_of, loaded_of};
ghost use Rattle.mac_registers.specs.Stored.{packed, stored_of, tag_words, tagging_of};
ghost use Rattle.mac_registers.specs.Inner.{Holds, Width};
ghost use Rattle.mac_registers.specs.Tagging.{begun-EIA3, begun-ZUC256, closed-EIA3, closed-ZUC256, updated};

use super::closing::{close_128, close_256};
use super::updates::{begin_128, begin_256, wait};
use mac_registers::{OnRun, TagState};
use zuc::{Loaded, Zuc};
use zuc_turn::Run;

pub fn start_128(g: Zuc) -> TagState
    requires { Ready (held_of g) }
    ensures { stored_of result ≡ packed 4 (begun-EIA3 (held_of g)) }
{
    let mut run = Run::new();
    let start = OnRun::new(g, &mut run);
    let o = begin_128(&mut run, start);
    o.taken(&run.cells)
}

pub fn start_256(width: usize, g: Zuc) -> TagState
    requires width_fits { Width width }
    requires ready { Ready (held_of g) }
    ensures { stored_of result ≡ packed width (begun-ZUC256 (width * 8) (held_of g)) }
{
    let mut run = Run::new();
    let start = OnRun::new(g, &mut run);
    let o = begin_256(&mut run, start, width);
    o.taken(&run.cells)
}

// Where all bytes wait no cell is laid.
pub fn update(s: TagState, message: &[u8]) -> TagState
    requires { Holds (stored_of s) }
    ensures { stored_of result ≡ packed s.width (updated (s.width * 8) (tagging_of (stored_of s)) message.now) }
{
    if message.len() < s.width - s.cnt {
        return wait(s, message);
    }
    let mut run = Run::new();
    let o = s.lay(&mut run);
    let e = super::updates::update(&mut run, o, message);
    e.taken(&run.cells)
}

pub fn finish_128(s: TagState, tail: &[u8], l: usize) -> u32
    requires holds { Holds (stored_of s) }
    requires width_is { s.width ≡ 4 }
    requires bits_fit { l ≤ length tail.now * 8 }
    ensures { result ≡ closed-EIA3 (tagging_of (stored_of s)) tail.now l }
{
    let mut run = Run::new();
    let o = s.lay(&mut run);
    close_128(&mut run, o, tail, l)
}

pub fn finish_256(s: TagState, tail: &[u8], l: usize) -> [u64; 2]
    requires holds { Holds (stored_of s) }
    requires bits_fit { l ≤ length tail.now * 8 }
    ensures { result ≡ tag_words s.width (closed-ZUC256 (s.width * 8) (tagging_of (stored_of s)) tail.now l) }
{
    let mut run = Run::new();
    let o = s.lay(&mut run);
    close_256(&mut run, o, tail, l)
}

// A whole message, from loaded cells on: no state is written between, and nothing is taken back.
pub fn once_128(loaded: Loaded, message: &[u8], l: usize) -> u32
    requires cells { Cells loaded.s }
    requires bits_fit { l ≤ length message.now * 8 }
    ensures { result ≡ closed-EIA3 (begun-EIA3 (from_zero (started (loaded_of loaded)))) message.now l }
{
    let mut run = Run::new();
    let h = zuc_bulk::startup::begin(loaded, &mut run);
    let o = begin_128(&mut run, OnRun { h, start: 0 });
    close_128(&mut run, o, message, l)
}

// The same from a started state.
pub fn once_256(width: usize, g: Zuc, message: &[u8], l: usize) -> [u64; 2]
    requires width_fits { Width width }
    requires ready { Ready (held_of g) }
    requires bits_fit { l ≤ length message.now * 8 }
    ensures { result ≡ tag_words width (closed-ZUC256 (width * 8) (begun-ZUC256 (width * 8) (held_of g)) message.now l) }
{
    let mut run = Run::new();
    let start = OnRun::new(g, &mut run);
    let o = begin_256(&mut run, start, width);
    close_256(&mut run, o, message, l)
}
