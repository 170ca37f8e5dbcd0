// ZUC-256: the rows of constants and the starts.
ghost use Rattle.std.specs.Prelude.{◌≡◌};
ghost use Rattle.keystream.specs.Starts.{start_told, start₂₅₆, start_tag₂₅₆};
ghost use Rattle.zuc_loading.specs.InnerRows.{Row};
ghost use Rattle.standard.specs.Loading.{d-keystream};

use super::started_from;
use refusals::Refusal;
use zuc::Generator;

// The constants d of the keystream, and of tags of 32, 64 and 128 bits, of 7 bits each.
const D: [u8; 16] = [
    0x22, 0x2f, 0x24, 0x2a, 0x6d, 0x40, 0x40, 0x40, 0x40, 0x40, 0x40, 0x40, 0x40, 0x52, 0x10, 0x30,
];

const D_32: [u8; 16] = [
    0x22, 0x2f, 0x25, 0x2a, 0x6d, 0x40, 0x40, 0x40, 0x40, 0x40, 0x40, 0x40, 0x40, 0x52, 0x10, 0x30,
];

const D_64: [u8; 16] = [
    0x23, 0x2f, 0x24, 0x2a, 0x6d, 0x40, 0x40, 0x40, 0x40, 0x40, 0x40, 0x40, 0x40, 0x52, 0x10, 0x30,
];

const D_128: [u8; 16] = [
    0x23, 0x2f, 0x25, 0x2a, 0x6d, 0x40, 0x40, 0x40, 0x40, 0x40, 0x40, 0x40, 0x40, 0x52, 0x10, 0x30,
];

// A start with a row of constants.
fn start(d: [u8; 16], key: &[u8], iv: &[u8]) -> Result<Generator, Refusal>
    requires { Row 7 d }
    ensures { start_told result ≡ start₂₅₆ d key.now iv.now }
{
    if key.len() != 32 {
        return Err(Refusal::BadKey);
    }
    if iv.len() != 23 {
        return Err(Refusal::BadIv);
    }
    Ok(started_from(zuc_loading::zuc256::load(d, key, iv)))
}

// A generator of the ZUC-256 keystream, or a refusal: BadKey for a key that is not 32 bytes, BadIv for an IV that is not 23.
pub fn new(key: &[u8], iv: &[u8]) -> Result<Generator, Refusal>
    ensures { start_told result ≡ start₂₅₆ d-keystream key.now iv.now }
{
    start(D, key, iv)
}

// The generator of a tag of `width` bytes: BadWidth for a width that is not 4, 8 or 16, then as `new`.
pub fn new_with_d(width: usize, key: &[u8], iv: &[u8]) -> Result<Generator, Refusal>
    ensures { start_told result ≡ start_tag₂₅₆ width key.now iv.now }
{
    match width {
        4 => start(D_32, key, iv),
        8 => start(D_64, key, iv),
        16 => start(D_128, key, iv),
        _ => Err(Refusal::BadWidth),
    }
}
