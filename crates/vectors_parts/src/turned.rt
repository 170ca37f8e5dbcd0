// The C arrays of states turned by a place: the same state, read from the next start index. Every place moves up by one, from the last
// to the first, and the index with them; no word is drawn, so the count stays.

// A generator's array: sixteen places, R1, R2, the start index, the count.
pub fn generator(g: [u32; 20]) -> [u32; 20] {
    let mut next = g;
    next[..16].rotate_right(1);
    next[18] = (g[18] % 16 + 1) % 16;
    next
}

// A tag state's array: the places two to a word, the first in the high half, so that a half comes from the word before; word 9 is the
// start index, word 10 the count.
pub fn tag(t: [u64; 21]) -> [u64; 21] {
    let mut next = t;
    let mut before = t[7];
    for word in next[..8].iter_mut() {
        let here = *word;
        *word = (before << 32) | (here >> 32);
        before = here;
    }
    next[9] = (t[9] % 16 + 1) % 16;
    next
}
