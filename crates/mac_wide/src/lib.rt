// Sums of windows at the set bits of a block, for tags of 64 and 128 bits: one table for each word of the key, and Horner's rule over the
// bytes of the message's words. No branch goes by a message bit.
#![tactic(auto)]

ghost use Rattle.std.specs.Prelude.{length, [], ◌∷◌, ◌++◌, ◌≡◌, ◌+◌, ◌*◌, ◌≤◌, ◌<◌};
ghost use Rattle.standard.specs.Bits.{M, window};
ghost use Rattle.standard.specs.Integrity.{T};
ghost use Rattle.standard.specs.Notation.{◌⊕◌, ◌⟨◌⟩};
ghost use Rattle.mac_wide.specs.InnerRows.{four_on, multiples_of, over, raised, stream_of};

use std::array;

// x moved up by k bits, with the top bits of y below it.
fn up(x: u64, y: u64, k: u32) -> u64
    requires { (0 < k) × (k < 64) }
    ensures { result ≡ raised k x y }
{
    (x << k) ^ (y >> (64 - k))
}

// The windows at the set bits of each number of four bits: the bit worth 8 is the first, so it stands for the window highest up.
fn multiples(x: u64, y: u64) -> [u64; 16]
    ensures { result ≡ multiples_of x y }
{
    let b = up(x, y, 1);
    let c = up(x, y, 2);
    let d = up(x, y, 3);
    let xb = x ^ b;
    let cd = c ^ d;
    [
        0,
        d,
        c,
        cd,
        b,
        b ^ d,
        b ^ c,
        b ^ cd,
        x,
        x ^ d,
        x ^ c,
        x ^ cd,
        xb,
        xb ^ d,
        xb ^ c,
        xb ^ cd,
    ]
}

// Four bits of a block, the high ones and the low ones of a byte. Two functions: one that is told which would be a switch, with two promises.
fn first_four(block: &[u8], at: usize) -> usize
    requires { at < length block.now }
    ensures { (result ≡ window (M block.now) (at * 8) 4) × (result < 16) }
{
    (block[at] >> 4) as usize
}

fn last_four(block: &[u8], at: usize) -> usize
    requires { at < length block.now }
    ensures { (result ≡ window (four_on (M block.now)) (at * 8) 4) × (result < 16) }
{
    (block[at] % 16) as usize
}

// A word of a register, and 0 past its last one.
fn word_of<const N: usize>(x: &[u64; N], i: usize) -> u64
    ensures { result ≡ x.now ⟨ i ⟩ }
{
    if i < N { x[i] } else { 0 }
}

// A register of N words moves up by a byte, and the entry of four message bits goes in, word by word.
fn turn<const N: usize>(entry: [u64; N], x: [u64; N]) -> [u64; N]
    ensures { result ≡ over 8 entry.entry (x.entry ++ (0 ∷ [])) }
{
    array::from_fn(
        |i: usize| -> u64
            requires { i < N }
            ensures { result ≡ entry ⟨ i ⟩ ⊕ raised 8 (x ⟨ i ⟩) (x ⟨ i + 1 ⟩) }
        { entry[i] ^ up(x[i], word_of(&x, i + 1), 8) },
    )
}

// The last byte first. What is lost below never reaches the bits that are read: those of the low row lie four further down.
// This and sum_128 stay two: no const argument is computed, so one generic sum would take W words, W + 1 of a register and 2 * W tables as three
// parameters tied by clauses, and loop over the words of an entry. Index i counts bytes from the end of both message words at once.
pub fn sum_64(key: [u64; 2], block: &[u8]) -> u64
    requires { 8 ≤ length block.now }
    ensures { result ≡ T 64 (stream_of key) 0 (M block.now) 64 }
{
    let a = multiples(key[0], key[1]);
    let b = multiples(key[1], 0);
    let mut high = [0u64; 2];
    let mut low = [0u64; 2];
    for i in 0usize..8 {
        let n = last_four(block, 7 - i);
        low = turn([a[n], b[n]], low);
        let n = first_four(block, 7 - i);
        high = turn([a[n], b[n]], high);
    }
    high[0] ^ up(low[0], low[1], 4)
}

// The second message word stands 64 bits further on in the key, so its entry has the next tables.
pub fn sum_128(key: [u64; 4], block: &[u8]) -> [u64; 2]
    requires { 16 ≤ length block.now }
    ensures { (result ⟨ 0 ⟩ ≡ T 64 (stream_of key) 0 (M block.now) 128) × (result ⟨ 1 ⟩ ≡ T 64 (stream_of key) 64 (M block.now) 128) }
{
    let a = multiples(key[0], key[1]);
    let b = multiples(key[1], key[2]);
    let c = multiples(key[2], key[3]);
    let d = multiples(key[3], 0);
    let mut high = [0u64; 3];
    let mut low = [0u64; 3];
    for i in 0usize..8 {
        let (n, m) = (last_four(block, 7 - i), last_four(block, 15 - i));
        low = turn([a[n] ^ b[m], b[n] ^ c[m], c[n] ^ d[m]], low);
        let (n, m) = (first_four(block, 7 - i), first_four(block, 15 - i));
        high = turn([a[n] ^ b[m], b[n] ^ c[m], c[n] ^ d[m]], high);
    }
    [
        high[0] ^ up(low[0], low[1], 4),
        high[1] ^ up(low[1], low[2], 4),
    ]
}
