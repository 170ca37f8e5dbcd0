// A recorded call made again through the public calls, and its answer held to the crate's.
use super::record::{Answer, Call, Cipher, Makes, Record};
use mac::Mac128;
use refusals::{Refusal, number_of};
use zuc::Generator;

// The generator of the call: of zeros, which no call takes, where its start is refused.
fn started(c: Call<'_>) -> Generator {
    let start = match c.cipher {
        Cipher::Zuc128 => keystream::zuc128::new(c.key, c.iv),
        Cipher::Zuc256 => keystream::zuc256::new(c.key, c.iv),
        Cipher::Lte => keystream::eea3::new(c.count, c.bearer, c.direction, c.key),
    };
    start.unwrap_or_default()
}

// The next word, or 0 of a refusal.
fn next_word(state: Generator) -> u32 {
    keystream::generate(state).answer.unwrap_or(0)
}

fn words_agree(c: Call<'_>, a: Answer<'_>) -> bool {
    let mut words = [0u32; 64];
    let n = a.bits.min(64);
    let mut state = started(c);
    let _ = keystream::fill(&mut state, &mut words[..n]);
    let bytes = words.map(|w| w.to_be_bytes());
    next_word(state) == a.next && a.drawn == a.bits && bytes[..n].as_flattened() == a.bytes
}

// A buffer as long as the tail should be, 256 bytes at most: zeros behind what the record has of it.
fn mask_agrees(c: Call<'_>, a: Answer<'_>) -> bool {
    let mut room = [0u8; 256];
    for (byte, tail) in room.iter_mut().zip(a.tail.bytes) {
        *byte = *tail;
    }
    let buffer = &mut room[..a.tail.len.min(256)];
    let mut state = started(c);
    let answer = mask::mask_crate(&mut state, buffer, a.bits);
    number_of(&answer) == u32::from(a.refusal)
        && answer.unwrap_or(0) == a.drawn
        && next_word(state) == a.next
        && &*buffer == a.bytes
}

// A tag as the record has it: the refusal number, and 16 bytes.
fn tells(a: Answer<'_>, tag: Result<[u64; 2], Refusal>) -> bool {
    let bytes = tag.unwrap_or([0, 0]).map(|w| w.to_be_bytes());
    number_of(&tag) == u32::from(a.refusal) && bytes.as_flattened() == a.bytes
}

// A refused start leaves zeros, which no call takes. Beside ZUC-256's: the states are of two types, and the tags of two shapes.
fn tag128_agrees(start: Result<Mac128, Refusal>, c: Call<'_>, a: Answer<'_>) -> bool {
    let mut m = start.unwrap_or_default();
    for msg in c.updates {
        let _ = mac::zuc128::update(&mut m, msg);
    }
    let tag = mac::zuc128::finish(&mut m, a.tail.bytes, a.bits);
    tells(a, tag.map(|t| [u64::from(t), 0]))
}

fn tag256_agrees(c: Call<'_>, a: Answer<'_>) -> bool {
    let mut m = mac::zuc256::new(c.width, c.key, c.iv).unwrap_or_default();
    for msg in c.updates {
        let _ = mac::zuc256::update(&mut m, msg);
    }
    tells(a, mac::zuc256::finish(&mut m, a.tail.bytes, a.bits))
}

fn tag_agrees(c: Call<'_>, a: Answer<'_>) -> bool {
    match c.cipher {
        Cipher::Zuc128 => tag128_agrees(mac::zuc128::new(c.key, c.iv), c, a),
        Cipher::Zuc256 => tag256_agrees(c, a),
        Cipher::Lte => {
            let start = mac::eia3::new(c.count, c.bearer, c.direction, c.key);
            tag128_agrees(start, c, a)
        }
    }
}

// Whether a record's call gives what the crate gave. One that is no call gives nothing.
pub fn agrees(record: &[u8]) -> bool {
    match Record(record).parts() {
        Ok((c, a)) => match c.makes {
            Makes::Words => words_agree(c, a),
            Makes::Mask => mask_agrees(c, a),
            Makes::Tag => tag_agrees(c, a),
        },
        Err(_) => false,
    }
}
