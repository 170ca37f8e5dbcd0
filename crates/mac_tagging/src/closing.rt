// Closing a tag: a set bit after the message's bits stands for the last window, so that the last block goes the way of the others.
ghost use Rattle.std.specs.Prelude.{drop, length, set, ◌≡◌, ◌+◌, ◌-◌, ◌*◌, ◌/◌, ◌<◌, ◌≤◌, ◌^◌};
ghost use Rattle.mac_registers.specs.Stored.{tag_words, tagging_of};
ghost use Rattle.mac_registers.specs.Inner.{Width, last_byte};
ghost use Rattle.mac_registers.specs.InnerOpen.{Opened, stored_at};
ghost use Rattle.mac_registers.specs.Tagging.{closed-EIA3, closed-ZUC256, extra_word};
ghost use Rattle.mac_tagging.specs.InnerSteps.{Closes};

use super::updates::update;
use mac_registers::{Open, tag_with};
use zuc_turn::Run;

// A byte's r high bits, a set bit after them, and zeros.
fn marked(b: u8, r: usize) -> u8
    requires { (0 < r) × (r < 8) }
    ensures { result ≡ (b / 2 ^ (8 - r) * 2 + 1) * 2 ^ (7 - r) }
{
    (((b >> (8 - r)) * 2 + 1) << (7 - r)) as u8
}

// The block that closes a message: what waits, the bits left over marked, and zeros.
fn last_block(waiting: [u8; 16], cnt: usize, tail: &[u8], q: usize, r: usize) -> [u8; 16]
    requires count_fits { cnt < 16 }
    requires bits_fit { (r < 8) × (q * 8 + r ≤ length tail.now * 8) }
    ensures { result ≡ set waiting cnt (last_byte (drop q tail.now) r) }
{
    let mut rem = waiting;
    let mut last: u8 = 128;
    if r != 0 {
        last = marked(tail[q], r);
    }
    rem[cnt] = last;
    rem
}

fn last_tag(o: Open, tail: &[u8], q: usize, r: usize) -> [u64; 2]
    requires width_fits { Width o.width × (o.cnt < 16) }
    requires bits_fit { (r < 8) × (q * 8 + r ≤ length tail.now * 8) }
    ensures { Closes o (drop q tail.now) r result }
{
    let block = last_block(o.rem, o.cnt, tail, q, r);
    tag_with(o.width, o.key, o.tag, &block)
}

// The closing of a ZUC-256 tag by l bits of a tail.
pub fn close_256(run: &mut Run, o: Open, tail: &[u8], l: usize) -> [u64; 2]
    requires opened { Opened run.old.cells run.old.pairs o }
    requires bits_fit { l ≤ length tail.now * 8 }
    ensures { result ≡ tag_words o.width (closed-ZUC256 (o.width * 8) (tagging_of (stored_at run.old.cells o)) tail.now l) }
{
    let q = l / 8;
    let e = update(run, o, &tail[..q]);
    last_tag(e, tail, q, l % 8)
}

// The extra word of ZUC-128 and EIA3 with n bits left over; after it the run is of no more use.
fn extra(run: &mut Run, o: Open, n: usize) -> u32
    requires opened { Opened run.old.cells run.old.pairs o }
    requires width_is { o.width ≡ 4 }
    ensures { result ≡ extra_word (tagging_of (stored_at run.old.cells o)) n }
{
    if n == 0 {
        return (o.key[0] % 0x1_0000_0000) as u32;
    }
    let mut word = [0u32; 1];
    o.g.draw(run, &mut word);
    word[0]
}

// The closing of a ZUC-128 or EIA3 tag.
pub fn close_128(run: &mut Run, o: Open, tail: &[u8], l: usize) -> u32
    requires opened { Opened run.old.cells run.old.pairs o }
    requires width_is { o.width ≡ 4 }
    requires bits_fit { l ≤ length tail.now * 8 }
    ensures { result ≡ closed-EIA3 (tagging_of (stored_at run.old.cells o)) tail.now l }
{
    let q = l / 8;
    let r = l % 8;
    let e = update(run, o, &tail[..q]);
    let tag = last_tag(e, tail, q, r);
    let word = extra(run, e, e.cnt * 8 + r);
    (tag[0] as u32) ^ word
}
