// Tags of 32 bits in bulk: one loop takes a step of the growing run and looks up a message word, so that each hides the other's waits.
#![tactic(auto)]

ghost use Rattle.std.specs.Prelude.{length, ◌≡◌, ◌%◌, ◌≤◌, ◌<◌};
ghost use Rattle.zuc_turn.specs.InnerRun.{Laid, Low};
ghost use Rattle.mac_registers.specs.InnerBlocks.{Blocks};
ghost use Rattle.mac_registers.specs.InnerOpen.{AtRest, Opened, stored_at};
ghost use Rattle.mac_registers.specs.Tagging.{updated};
ghost use Rattle.mac_narrow.specs.InnerNarrow.{Tagged, tagging_at};

use mac_registers::sums::{joined, sum_32};
use mac_registers::{Moved, OnRun, Open};
use zuc_bulk::{index_after, rest};
use zuc_turn::Run;

// A tag of 32 bits in the making where nothing waits: what the loop carries beside the run.
#[derive(Clone, Copy)]
pub struct Narrow {
    pub g: OnRun,
    pub key: u64,
    pub tag: u32,
}

// At most 64 blocks of four bytes. The cells and pairs are at the front, before and after. By index: a turn of the run asks for its number,
// so an iterator over blocks would have to carry it beside them.
fn words_32(run: &mut Run, start: Narrow, part: &[u8]) -> Narrow
    requires laid { Laid run.old.cells run.old.pairs 0 }
    requires halves { Low start.g.h × (start.g.start < 16) }
    requires part_fits { (length part.now ≤ 256) × (length part.now % 4 ≡ 0) }
    ensures { Tagged run.new.cells run.new.pairs result (updated 32 (tagging_at run.old.cells start) part.now) }
{
    let mut h = start.g.h;
    let mut key = start.key;
    let mut tag = start.tag;
    let n = part.len() / 4;
    for j in 0..n {
        let b = 4 * j;
        let e = b + 4;
        tag = tag ^ sum_32(key, &part[b..e], 0);
        let t = run.turn(j, h);
        key = joined((key % 0x1_0000_0000) as u32, t.word);
        h = t.h;
    }
    rest(run, n);
    let g = OnRun {
        h,
        start: index_after(start.g.start, n),
    };
    Narrow { g, key, tag }
}

// Blocks of four bytes, as many as there are.
fn parts_32(run: &mut Run, start: Narrow, part: &[u8]) -> Narrow
    requires laid { Laid run.old.cells run.old.pairs 0 }
    requires halves { Low start.g.h × (start.g.start < 16) }
    requires whole { length part.now % 4 ≡ 0 }
    ensures { Tagged run.new.cells run.new.pairs result (updated 32 (tagging_at run.old.cells start) part.now) }
{
    let mut s = start;
    for i in (0..part.len()).step_by(256) {
        let e = i + (part.len() - i).min(256);
        s = words_32(run, s, &part[i..e]);
    }
    s
}

// Whole blocks, as many as there are, where nothing waits.
pub fn blocks_32(run: &mut Run, start: Open, message: &[u8], from: usize) -> Moved
    requires opened { Opened run.old.cells run.old.pairs start }
    requires aligned { (start.cnt ≡ 0) × (from ≤ length message.now) }
    requires width_is { start.width ≡ 4 }
    ensures { AtRest run.new.cells run.new.pairs result.o.g.h × Blocks (stored_at run.old.cells start) message.now from (stored_at run.new.cells result.o) result.at }
{
    let first = Narrow {
        g: start.g,
        key: start.key[0],
        tag: start.tag[0] as u32,
    };
    let at = from + (message.len() - from) / 4 * 4;
    let s = parts_32(run, first, &message[from..at]);
    let o = Open {
        g: s.g,
        key: [s.key, 0, 0, 0],
        tag: [s.tag as u64, 0],
        rem: [0; 16],
        cnt: 0,
        width: 4,
    };
    Moved { o, at }
}
