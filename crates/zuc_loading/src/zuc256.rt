// ZUC-256: the split of the IV and the load.
ghost use Rattle.std.specs.Prelude.{drop, length, take, [], ◌∷◌, ◌≡◌};
ghost use Rattle.zuc_loading.specs.InnerRows.{Inside, besides, joined, sextets};
ghost use Rattle.standard.specs.Loading.{load₂₅₆};
ghost use Rattle.standard.specs.Notation.{◌‖₇◌, ◌‖₈◌};
ghost use Rattle.zuc.specs.Reading.{loaded_of};

use std::array;
use zuc::Loaded;

// Where the key starts, and the IV behind it, in one array.
const K: usize = 0;

const IV: usize = 32;

// The places of the bytes of the loaded cells s0 to s15, as the paper lists them: the one before the constant, and the two behind it.
const PLACES: [(usize, usize, usize); 16] = [
    (K + 0, K + 21, K + 16),
    (K + 1, K + 22, K + 17),
    (K + 2, K + 23, K + 18),
    (K + 3, K + 24, K + 19),
    (K + 4, K + 25, K + 20),
    (IV + 0, K + 5, K + 26),
    (IV + 1, K + 6, K + 27),
    (IV + 10, K + 7, IV + 2),
    (K + 8, IV + 3, IV + 11),
    (K + 9, IV + 12, IV + 4),
    (IV + 5, K + 10, K + 28),
    (K + 11, IV + 6, IV + 13),
    (K + 12, IV + 7, IV + 14),
    (K + 13, IV + 15, IV + 8),
    (K + 14, IV + 16, IV + 9),
    (K + 15, K + 30, K + 29),
];

// Three bytes as four numbers of 6 bits.
fn split(x: u8, y: u8, z: u8) -> [u8; 4]
    ensures { result ≡ sextets (x ∷ y ∷ z ∷ []) }
{
    [x >> 2, x % 4 * 16 + (y >> 4), y % 16 * 4 + (z >> 6), z % 64]
}

// A loaded cell, of 8, 7, 8 and 8 bits.
fn concat_bits(a: u8, b: u8, c: u8, d: u8) -> u32
    ensures { result ≡ a ‖₇ b ‖₈ c ‖₈ d }
{
    ((a as u32) << 23) + ((b as u32) << 16) + ((c as u32) << 8) + (d as u32)
}

// The bits beside the constants d0 to d15: none, IV17 to IV24, or a half of K31.
fn beside(x: [u8; 55]) -> [u8; 16]
    ensures { result ≡ besides (take 32 x) (drop 32 x) }
{
    let [p0, p1, p2, p3] = split(x[IV + 17], x[IV + 18], x[IV + 19]);
    let [q0, q1, q2, q3] = split(x[IV + 20], x[IV + 21], x[IV + 22]);
    let k31 = x[K + 31];
    [
        0,
        0,
        0,
        0,
        0,
        p0,
        p1,
        p2,
        p3,
        q0,
        q1,
        q2,
        q3,
        0,
        k31 >> 4,
        k31 % 16,
    ]
}

// The cells: constants d with bits b beside them, each between the bytes of x at its places.
fn join(places: [(usize, usize, usize); 16], d: [u8; 16], b: [u8; 16], x: [u8; 55]) -> [u32; 16]
    requires { Inside places }
    ensures { result ≡ joined places d b x }
{
    array::from_fn(|i| {
        let (first, third, last) = places[i];
        concat_bits(x[first], d[i] | b[i], x[third], x[last])
    })
}

// The loaded cells of a key and the IV behind it.
fn load_from(d: [u8; 16], x: [u8; 55]) -> Loaded
    ensures { loaded_of result ≡ load₂₅₆ d (take 32 x) (drop 32 x) }
{
    Loaded {
        s: join(PLACES, d, beside(x), x),
        r1: 0,
        r2: 0,
    }
}

// The loaded cells, with a row of constants.
pub fn load(d: [u8; 16], key: &[u8], iv: &[u8]) -> Loaded
    requires key_fits { length key.now ≡ 32 }
    requires iv_fits { length iv.now ≡ 23 }
    ensures { loaded_of result ≡ load₂₅₆ d key.now iv.now }
{
    // an array, so that the load reads places that are known to be there
    let mut x = [0u8; 55];
    x[..32].copy_from_slice(key);
    x[32..].copy_from_slice(iv);
    load_from(d, x)
}
