// ZUC-128: the start.
ghost use Rattle.std.specs.Prelude.{◌≡◌};
ghost use Rattle.keystream.specs.Starts.{start_told, start₁₂₈};

use super::started_from;
use refusals::Refusal;
use zuc::Generator;

// A generator of the ZUC-128 keystream, or a refusal: BadKey for a key, BadIv for an IV that is not 16 bytes.
pub fn new(key: &[u8], iv: &[u8]) -> Result<Generator, Refusal>
    ensures { start_told result ≡ start₁₂₈ key.now iv.now }
{
    if key.len() != 16 {
        return Err(Refusal::BadKey);
    }
    if iv.len() != 16 {
        return Err(Refusal::BadIv);
    }
    Ok(started_from(zuc_loading::zuc128::load(key, iv)))
}
