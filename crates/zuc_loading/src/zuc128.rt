// ZUC-128: the load.
ghost use Rattle.std.specs.Prelude.{length, ◌≡◌, ◌<◌, ◌^◌};
ghost use Rattle.standard.specs.Loading.{load₁₂₈};
ghost use Rattle.standard.specs.Notation.{◌‖₈◌, ◌‖₁₅◌};
ghost use Rattle.zuc.specs.Reading.{loaded_of};

use std::array;
use zuc::Loaded;

// The constants d, of 15 bits each.
const D: [u32; 16] = [
    0x44d7, 0x26bc, 0x626b, 0x135e, 0x5789, 0x35e2, 0x7135, 0x09af, 0x4d78, 0x2f13, 0x6bc4, 0x1af1,
    0x5e26, 0x3c4d, 0x789a, 0x47ac,
];

// A loaded cell: the key's byte, the constant, the IV's byte.
fn cell(k: u8, d: u32, iv: u8) -> u32
    requires { d < 2 ^ 15 }
    ensures { result ≡ k ‖₁₅ d ‖₈ iv }
{
    ((k as u32) << 23) + (d << 8) + (iv as u32)
}

// The loaded cells.
pub fn load(key: &[u8], iv: &[u8]) -> Loaded
    requires key_fits { length key.now ≡ 16 }
    requires iv_fits { length iv.now ≡ 16 }
    ensures { loaded_of result ≡ load₁₂₈ key.now iv.now }
{
    Loaded {
        s: array::from_fn(|i| cell(key[i], D[i], iv[i])),
        r1: 0,
        r2: 0,
    }
}
