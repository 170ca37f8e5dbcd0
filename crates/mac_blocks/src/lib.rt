// Whole blocks of a message in bulk, at any width of a tag: their keystream words are drawn before they are used.
#![tactic(auto)]

ghost use Rattle.std.specs.Prelude.{length, ◌≡◌, ℕ, ◌*◌, ◌≤◌};
ghost use Rattle.mac_registers.specs.InnerBlocks.{Blocks};
ghost use Rattle.mac_registers.specs.Stored.{packed, tagging_of};
ghost use Rattle.mac_registers.specs.Inner.{Width};
ghost use Rattle.mac_registers.specs.InnerOpen.{AtRest, Opened, Stands, stored_at};
ghost use Rattle.mac_registers.specs.Tagging.{updated};
ghost use Rattle.mac_blocks.specs.InnerWhole.{fed_by};

use mac_registers::{Moved, Open, fresh_at, key_on, tag_with};
use zuc_turn::Run;

#[derive(Clone, Copy)]
pub struct Fed {
    pub key: [u64; 4],
    pub tag: [u64; 2],
}

// Whole blocks, with as many words as they are long.
fn feed_all(width: usize, key: [u64; 4], tag: [u64; 2], words: &[u32], part: &[u8]) -> Fed
    requires width_fits { Width width }
    requires part_fits { (length part.now ≤ length words.now * 4) × ((n : ℕ) × (length part.now ≡ n * width)) }
    ensures { fed_by width key tag words.now part.now result.key result.tag }
{
    let mut fed = Fed { key, tag };
    for i in (0..part.len()).step_by(width) {
        let sum = tag_with(width, fed.key, fed.tag, &part[i..i + width]);
        let fresh = fresh_at(width, words, i / 4);
        let moved = key_on(width, fed.key, fresh);
        fed = Fed {
            key: moved,
            tag: sum,
        };
    }
    fed
}

// Whole blocks, at most 256 bytes, where nothing waits.
fn feed(run: &mut Run, o: Open, part: &[u8]) -> Open
    requires opened { Opened run.old.cells run.old.pairs o }
    requires blocks { (o.cnt ≡ 0) × (length part.now ≤ 256) × ((n : ℕ) × (length part.now ≡ n * o.width)) }
    ensures { Stands run.new.cells run.new.pairs result (packed o.width (updated (o.width * 8) (tagging_of (stored_at run.old.cells o)) part.now)) × (result.cnt ≡ 0) }
{
    let n = part.len() / 4;
    let mut words = [0u32; 64];
    let g = o.g.draw(run, &mut words[..n]);
    let Fed { key, tag } = feed_all(o.width, o.key, o.tag, &words, part);
    Open {
        g,
        key,
        tag,
        rem: [0u8; 16],
        cnt: 0,
        width: o.width,
    }
}

// Whole blocks, as many as there are, where nothing waits.
pub fn blocks(run: &mut Run, start: Open, message: &[u8], from: usize) -> Moved
    requires opened { Opened run.old.cells run.old.pairs start }
    requires aligned { (start.cnt ≡ 0) × (from ≤ length message.now) }
    ensures { AtRest run.new.cells run.new.pairs result.o.g.h × Blocks (stored_at run.old.cells start) message.now from (stored_at run.new.cells result.o) result.at }
{
    let at = message.len() - (message.len() - from) % start.width;
    let mut o = start;
    for i in (from..at).step_by(256) {
        let e = i + (at - i).min(256);
        o = feed(run, o, &message[i..e]);
    }
    Moved { o, at }
}
