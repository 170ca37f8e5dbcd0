// Lines that call, and what they tell. What a call writes to is lent full of sevens.
use super::in_place::drawn;
use super::kinds::{KINDS, Kind, OnGenerator, OnTag, Once};
use capi::eea3::{
    eea3_mask_clean, eea3_mask_clean_strict, eea3_mask_crate, eea3_mask_crate_strict,
};
use capi::frames::{zuc_frame_read, zuc_frame_write};
use capi::generators::{
    eea3_start, eea3_start_strict, zuc_draw, zuc_mask_clean, zuc_mask_crate, zuc_words,
    zuc128_start, zuc256_start,
};
use capi::tags::{
    eia3_tag, eia3_tag_start, eia3_tag_start_strict, eia3_tag_strict, zuc128_tag,
    zuc128_tag_finish, zuc128_tag_start, zuc128_tag_update, zuc256_tag, zuc256_tag_finish,
    zuc256_tag_start, zuc256_tag_update,
};
use capi_arrays::{array_of, state_in};
use guard::{Link, accept_in};
use refusals::{ACCEPTED, number_of};
use vectors_parts::fields::{Fields, low_word};
use vectors_parts::pieces::words;
use vectors_parts::text::Text;
use vectors_parts::turned;

// What is told where an array was set.
const SET: &[u8] = b"set ";

// The arrays that the lines work on.
type Generator = [u32; 20];

type TagArray = [u64; 21];

#[derive(Clone, Copy)]
pub struct Arrays {
    pub generator: Generator,
    pub tag: TagArray,
}

// What a call told: the number that it returned, and what it wrote.
pub type Told = Text<4096>;

// A tag of a call: the number, and its two words.
fn tagged<F: FnOnce(&mut [u64; 2]) -> u32>(told: &mut Told, call: F)
    requires { F.IsAlwaysCallable call }
{
    let mut tag = [7u64; 2];
    let number = call(&mut tag);
    told.number(u64::from(number));
    told.hex(&tag);
}

// A mask of a call: the number, the count and the buffer.
fn masked<F: FnOnce(&mut [u8], &mut usize) -> u32>(told: &mut Told, bytes: &Text<1024>, call: F)
    requires { F.IsAlwaysCallable call }
{
    let mut room = *bytes;
    let mut count: usize = 7;
    let number = call(room.as_mut_slice(), &mut count);
    told.number(u64::from(number));
    told.number(count as u64);
    told.hex(room.as_slice());
}

// Draws of a call: the number, and the words from one of them on.
fn drew<F: FnOnce(&mut [u32]) -> u32>(told: &mut Told, f: &Fields, call: F)
    requires { F.IsAlwaysCallable call }
{
    let mut room = [7u32; 2048];
    let many = (f.numbers[0] as usize).min(2048);
    let from = (f.numbers[1] as usize).min(many);
    let number = call(&mut room[..many]);
    told.number(u64::from(number));
    told.hex(&room[from..many]);
}

// One draw after another into a buffer; of their numbers the last that was no 0.
fn draw_each(g: &mut Generator, words: &mut [u32]) -> u32 {
    let mut number = ACCEPTED;
    for word in words.iter_mut() {
        *word = 7;
        let told = zuc_draw(g, word);
        if told != ACCEPTED {
            number = told;
        }
    }
    number
}

// A draw of the generator as a struct that is lent: the number, and the word. An index or a count too great for its word would leave the
// array as it was, and a row would show it.
fn draw_in_place(told: &mut Told, g: &mut Generator) {
    let drew = drawn(state_in(*g));
    let next = drew.state;
    if next.z.start < 0x1_0000_0000 && next.count < 0x1_0000_0000 {
        *g = array_of(next);
    }
    told.number(u64::from(number_of(&drew.answer)));
    told.hex(&[drew.answer.unwrap_or(0)]);
}

fn on_generator(told: &mut Told, kind: OnGenerator, f: &Fields, g: &mut Generator) -> Option<()> {
    let [a, b, _] = &f.bytes;
    let (key, iv) = (a.as_slice(), b.as_slice());
    let bits = f.numbers[0] as usize;
    match kind {
        OnGenerator::Zuc128Start => told.number(u64::from(zuc128_start(g, key, iv))),
        OnGenerator::Zuc256Start => told.number(u64::from(zuc256_start(g, key, iv))),
        OnGenerator::Eea3Start => {
            let number = eea3_start(g, f.count(), f.bearer(), f.direction(), key);
            told.number(u64::from(number));
        }
        OnGenerator::Eea3StartStrict => {
            let number = eea3_start_strict(g, f.count(), f.bearer(), f.direction(), key);
            told.number(u64::from(number));
        }
        OnGenerator::DrawEach => drew(told, f, |words| draw_each(g, words)),
        OnGenerator::Words => drew(told, f, |words| zuc_words(g, words)),
        OnGenerator::DrawInPlace => draw_in_place(told, g),
        OnGenerator::MaskCrate => masked(told, a, |buf, n| zuc_mask_crate(g, buf, bits, n)),
        OnGenerator::MaskClean => masked(told, a, |buf, n| zuc_mask_clean(g, buf, bits, n)),
        OnGenerator::Tell => told.hex(g.as_slice()),
        OnGenerator::Set => {
            *g.get_mut(f.numbers[0] as usize)? = low_word(f.numbers[1]);
            told.push(SET);
        }
        OnGenerator::Turn => {
            *g = turned::generator(*g);
            told.push(SET);
        }
    }
    Some(())
}

// A message given to an array in parts of a size, an empty one behind each: what is left to close it by, and of how many bits.
fn in_parts<'a, U>(t: &mut TagArray, f: &'a Fields, update: U) -> Option<(&'a [u8], usize)>
where
    U: Fn(&mut TagArray, &[u8]) -> u32,
    requires { U.IsAlwaysCallable update }
{
    let size = f.numbers[0] as usize;
    let bits = f.numbers[1] as usize;
    let msg = f.bytes[0].as_slice();
    if size == 0 {
        return None;
    }
    let whole = (bits / 8).min(msg.len());
    let done = whole - whole % size;
    for part in msg[..done].chunks(size) {
        update(t, part);
        update(t, &[]);
    }
    Some((&msg[done..], bits - done * 8))
}

fn on_tag(told: &mut Told, kind: OnTag, f: &Fields, t: &mut TagArray) -> Option<()> {
    let [a, b, _] = &f.bytes;
    let (a, b) = (a.as_slice(), b.as_slice());
    let n = f.numbers[0] as usize;
    match kind {
        OnTag::Zuc128Start => told.number(u64::from(zuc128_tag_start(t, a, b))),
        OnTag::Eia3Start => {
            let number = eia3_tag_start(t, f.count(), f.bearer(), f.direction(), a);
            told.number(u64::from(number));
        }
        OnTag::Eia3StartStrict => {
            let number = eia3_tag_start_strict(t, f.count(), f.bearer(), f.direction(), a);
            told.number(u64::from(number));
        }
        OnTag::Zuc256Start => told.number(u64::from(zuc256_tag_start(t, n, a, b))),
        OnTag::Zuc128Update => told.number(u64::from(zuc128_tag_update(t, a))),
        OnTag::Zuc256Update => told.number(u64::from(zuc256_tag_update(t, a))),
        OnTag::Zuc128Finish => tagged(told, |tag| zuc128_tag_finish(t, a, n, tag)),
        OnTag::Zuc256Finish => tagged(told, |tag| zuc256_tag_finish(t, a, n, tag)),
        OnTag::Zuc128Parts => {
            let mut t = *t;
            let (tail, bits) = in_parts(&mut t, f, |t, part| zuc128_tag_update(t, part))?;
            tagged(told, |tag| zuc128_tag_finish(&mut t, tail, bits, tag));
        }
        OnTag::Zuc256Parts => {
            let mut t = *t;
            let (tail, bits) = in_parts(&mut t, f, |t, part| zuc256_tag_update(t, part))?;
            tagged(told, |tag| zuc256_tag_finish(&mut t, tail, bits, tag));
        }
        OnTag::Tell => told.hex(t.as_slice()),
        OnTag::Set => {
            *t.get_mut(n)? = f.numbers[1];
            told.push(SET);
        }
        OnTag::Turn => {
            *t = turned::tag(*t);
            told.push(SET);
        }
    }
    Some(())
}

// A frame written where it lies: the number, and the frame.
fn wrote(told: &mut Told, f: &Fields) {
    let [ck, ik, frame] = &f.bytes;
    let mut frame = *frame;
    let number = zuc_frame_write(
        ck.as_slice(),
        ik.as_slice(),
        f.count(),
        f.bearer(),
        f.direction(),
        low_word(f.numbers[3]),
        frame.as_mut_slice(),
    );
    told.number(u64::from(number));
    told.hex(frame.as_slice());
}

// A frame read where it lies: the number, the four fields and the frame.
fn opened(told: &mut Told, f: &Fields) {
    let [ck, ik, frame] = &f.bytes;
    let mut frame = *frame;
    let mut fields = [7u32; 4];
    let number = zuc_frame_read(
        ck.as_slice(),
        ik.as_slice(),
        frame.as_mut_slice(),
        &mut fields,
    );
    told.number(u64::from(number));
    told.hex(&fields);
    told.hex(frame.as_slice());
}

// A COUNT held against a table of four like links: the number, and the four as they then are, so that a neighbour that was altered shows.
fn guarded(told: &mut Told, f: &Fields) {
    let [highest, accepted, at, count] = f.numbers;
    let l = Link {
        highest: low_word(highest),
        accepted,
    };
    let held = accept_in([l, l, l, l], at as usize, low_word(count));
    told.number(u64::from(number_of(&held.answer)));
    for l in held.links {
        told.hex(&[u64::from(l.highest), l.accepted]);
    }
}

// A one-shot.
fn once(told: &mut Told, kind: Once, f: &Fields) {
    let [first, second, third] = &f.bytes;
    let (a, b, c) = (first.as_slice(), second.as_slice(), third.as_slice());
    let (count, bearer, direction) = (f.count(), f.bearer(), f.direction());
    let n = f.numbers;
    let bits = n[3] as usize;
    match kind {
        Once::Zuc128Tag => tagged(told, |tag| zuc128_tag(a, b, c, n[0] as usize, tag)),
        Once::Eia3Tag => tagged(
            told,
            |tag| eia3_tag(count, bearer, direction, a, b, bits, tag),
        ),
        Once::Eia3TagStrict => tagged(told, |tag| {
            eia3_tag_strict(count, bearer, direction, a, b, bits, tag)
        }),
        Once::Zuc256Tag => tagged(told, |tag| {
            zuc256_tag(n[0] as usize, a, b, c, n[1] as usize, tag)
        }),
        Once::MaskCrate => masked(told, second, |buf, drawn| {
            eea3_mask_crate(count, bearer, direction, a, buf, bits, drawn)
        }),
        Once::MaskClean => masked(told, second, |buf, drawn| {
            eea3_mask_clean(count, bearer, direction, a, buf, bits, drawn)
        }),
        Once::MaskCrateStrict => masked(told, second, |buf, drawn| {
            eea3_mask_crate_strict(count, bearer, direction, a, buf, bits, drawn)
        }),
        Once::MaskCleanStrict => masked(told, second, |buf, drawn| {
            eea3_mask_clean_strict(count, bearer, direction, a, buf, bits, drawn)
        }),
        Once::FrameWrite => wrote(told, f),
        Once::FrameRead => opened(told, f),
        Once::Accept => guarded(told, f),
    }
}

// Whether a line has a pattern's own words where the pattern has them. Asked first: it needs no room for bytes, which `Fields::of` lays out for
// each pattern, and nearly all patterns fail it.
fn names_agree(line: &[u8], pattern: &[u8]) -> bool {
    let mut pairs = words(line).zip(words(pattern));
    pairs.all(|(word, asked)| word == asked || matches!(asked, b"N" | b"W" | b"B"))
}

// What a line tells, put behind what is told already, by the first pattern that it fits: None, where it fits none or asks for what is not there.
pub fn call(line: &[u8], arrays: &mut Arrays, told: &mut Told) -> Option<()> {
    for (pattern, kind) in KINDS.iter() {
        let pattern = pattern.as_bytes();
        if !names_agree(line, pattern) {
            continue;
        }
        if let Some(f) = Fields::of(line, pattern) {
            return match *kind {
                Kind::Generator(kind) => on_generator(told, kind, &f, &mut arrays.generator),
                Kind::Tag(kind) => on_tag(told, kind, &f, &mut arrays.tag),
                Kind::Once(kind) => {
                    once(told, kind, &f);
                    Some(())
                }
            };
        }
    }
    None
}
