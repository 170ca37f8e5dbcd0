// 128-EEA3: the start, and its strict form. COUNT, bearer and direction are parameters, as in the document and in C.
ghost use Rattle.std.specs.Prelude.{◌≡◌};
ghost use Rattle.keystream.specs.Starts.{start_told, start-EEA3, strict_start-EEA3};

use super::zuc128;
use refusals::Refusal;
use words::fields_fit;
use zuc::Generator;
use zuc_loading::eea3::iv;

// A generator of the EEA3 keystream, or BadKey for a key that is not 16 bytes.
pub fn new(count: u32, bearer: u8, direction: u8, key: &[u8]) -> Result<Generator, Refusal>
    ensures { start_told result ≡ start-EEA3 count bearer direction key.now }
{
    let v = iv(count, bearer, direction);
    zuc128::new(key, &v)
}

// The same of a bearer and a direction that are taken as given: BadField, after BadKey, for a bearer above 31 or a direction above 1.
pub fn new_strict(count: u32, bearer: u8, direction: u8, key: &[u8]) -> Result<Generator, Refusal>
    ensures { start_told result ≡ strict_start-EEA3 count bearer direction key.now }
{
    if key.len() != 16 {
        return Err(Refusal::BadKey);
    }
    if !fields_fit(bearer, direction) {
        return Err(Refusal::BadField);
    }
    new(count, bearer, direction, key)
}
