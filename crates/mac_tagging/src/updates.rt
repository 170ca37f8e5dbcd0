// Starts and updates, on a run that stands from the beginning of a call to its end.
ghost use Rattle.std.specs.Prelude.{length, ◌≡◌, ◌+◌, ◌*◌, ◌≤◌, ◌<◌};
ghost use Rattle.std.proofs.Math.Seq.{paste};
ghost use Rattle.mac_registers.specs.InnerBlocks.{Blocks};
ghost use Rattle.mac_registers.specs.Stored.{packed, tagging_of};
ghost use Rattle.mac_registers.specs.Inner.{Width};
ghost use Rattle.mac_registers.specs.InnerOpen.{AtRest, Opened, Stands, held_on, stored_at};
ghost use Rattle.mac_registers.specs.Tagging.{begun-EIA3, begun-ZUC256, updated};
ghost use Rattle.mac_tagging.specs.InnerSteps.{Topped, Waits};

use mac_blocks::blocks;
use mac_narrow::blocks_32;
use mac_registers::{Moved, OnRun, Open, TagOn, fresh_at, key_at};
use zuc_turn::Run;

// No tag yet, and a key pair of the first words.
pub fn begin_128(run: &mut Run, start: OnRun) -> Open
    requires at_rest { AtRest run.old.cells run.old.pairs start.h }
    requires start_fits { start.start < 16 }
    ensures { Stands run.new.cells run.new.pairs result (packed 4 (begun-EIA3 (held_on run.old.cells start))) }
{
    let mut words = [0u32; 2];
    let g = start.draw(run, &mut words);
    let key = key_at(4, &words, 0);
    Open {
        g,
        key,
        tag: [0u64; 2],
        rem: [0u8; 16],
        cnt: 0,
        width: 4,
    }
}

// The first words as the tag, and a key pair of those after them: all are drawn at once. Beside `begin_128` here, and so in the calls and
// closings: the documents begin and close a tag of EIA3 and one of ZUC-256 by other words, and one function would be a switch between them.
pub fn begin_256(run: &mut Run, start: OnRun, width: usize) -> Open
    requires at_rest { AtRest run.old.cells run.old.pairs start.h }
    requires start_fits { start.start < 16 }
    requires width_fits { Width width }
    ensures { Stands run.new.cells run.new.pairs result (packed width (begun-ZUC256 (width * 8) (held_on run.old.cells start))) }
{
    let n = width / 4 * 3;
    let mut words = [0u32; 12];
    let g = start.draw(run, &mut words[..n]);
    let tag = fresh_at(width, &words, 0);
    let key = key_at(width, &words, width / 4);
    Open {
        g,
        key,
        tag,
        rem: [0u8; 16],
        cnt: 0,
        width,
    }
}

// Bytes put behind those that wait.
pub fn behind(waiting: [u8; 16], cnt: usize, bytes: &[u8]) -> [u8; 16]
    requires { cnt + length bytes.now ≤ 16 }
    ensures { result ≡ paste waiting cnt bytes.now (length bytes.now) }
{
    let mut rem = waiting;
    rem[cnt..cnt + bytes.len()].copy_from_slice(bytes);
    rem
}

// Bytes that complete no block: they wait, and no word is drawn.
pub fn wait<G: Copy>(s: TagOn<G>, bytes: &[u8]) -> TagOn<G>
    requires { (s.cnt + length bytes.now < s.width) × Width s.width }
    ensures { Waits s bytes.now result }
{
    let rem = behind(s.rem, s.cnt, bytes);
    TagOn {
        rem,
        cnt: s.cnt + bytes.len(),
        ..s
    }
}

// Whole blocks, as many as there are, where nothing waits.
fn whole(run: &mut Run, o: Open, message: &[u8], from: usize) -> Moved
    requires { (Opened run.old.cells run.old.pairs o) × ((o.cnt ≡ 0) × (from ≤ length message.now)) }
    ensures { AtRest run.new.cells run.new.pairs result.o.g.h × Blocks (stored_at run.old.cells o) message.now from (stored_at run.new.cells result.o) result.at }
{
    if o.width == 4 {
        return blocks_32(run, o, message, from);
    }
    blocks(run, o, message, from)
}

// The bytes that a block lacks: it is fed, and nothing waits.
fn complete(run: &mut Run, o: Open, bytes: &[u8]) -> Open
    requires opened { Opened run.old.cells run.old.pairs o }
    requires fills { o.cnt + length bytes.now ≡ o.width }
    ensures { Stands run.new.cells run.new.pairs result (packed o.width (updated (o.width * 8) (tagging_of (stored_at run.old.cells o)) bytes.now)) × (result.cnt ≡ 0) }
{
    let full = behind(o.rem, o.cnt, bytes);
    let empty = Open {
        rem: [0u8; 16],
        cnt: 0,
        ..o
    };
    let r = whole(run, empty, &full[..o.width], 0);
    r.o
}

// What waits is completed, where something waits.
fn top_up(run: &mut Run, o: Open, message: &[u8]) -> Moved
    requires opened { Opened run.old.cells run.old.pairs o }
    requires fills { o.width ≤ o.cnt + length message.now }
    ensures { Topped run.old.cells o message.now run.new.cells run.new.pairs result }
{
    if o.cnt == 0 {
        return Moved { o, at: 0 };
    }
    let at = o.width - o.cnt;
    let next = complete(run, o, &message[..at]);
    Moved { o: next, at }
}

// First the block that waits, then whole blocks; the rest waits.
pub fn update(run: &mut Run, o: Open, message: &[u8]) -> Open
    requires { Opened run.old.cells run.old.pairs o }
    ensures { Stands run.new.cells run.new.pairs result (packed o.width (updated (o.width * 8) (tagging_of (stored_at run.old.cells o)) message.now)) }
{
    if message.len() < o.width - o.cnt {
        return wait(o, message);
    }
    let topped = top_up(run, o, message);
    let fed = whole(run, topped.o, message, topped.at);
    wait(fed.o, &message[fed.at..])
}
