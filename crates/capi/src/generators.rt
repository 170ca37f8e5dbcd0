// Generators: starts, draws and masks. Each export reads the array as a state, makes the inner call, and writes back what it hands
// back: on a refusal that is the state as it came.
ghost use Rattle.std.specs.Prelude.{IfOk, List, ◌≡◌, ℕ, ◌^◌, ◌<◌};
ghost use Rattle.capi_arrays.specs.Arrays.{held_in};
ghost use Rattle.capi.specs.Generators.{draw_array, mask_array, start_array, words_array};
ghost use Rattle.keystream.specs.Draws.{draw_outcome, fill_outcome};
ghost use Rattle.keystream.specs.Starts.{start_told, start₁₂₈, start₂₅₆, start-EEA3, strict_start-EEA3};
ghost use Rattle.mask.specs.Outcome.{clean_outcome, crate_outcome, told};
ghost use Rattle.standard.specs.Loading.{d-keystream};

use capi_arrays::{array_of, state_in};
use capi_draw::{draw_in, has_word, is_formed};
use refusals::{ACCEPTED, Refusal, number_of};
use zuc::Generator;

// What a start hands back goes into the array: zeros, where it was refused.
fn put_start(state: &mut [u32; 20], start: Result<Generator, Refusal>) -> u32
    requires { IfOk start (λ g. (g.z.start < 2 ^ 32) × (g.count < 2 ^ 32)) }
    ensures { record { number = result; array = state.new } ≡ start_array (start_told start) }
{
    match start {
        Ok(g) => {
            *state = array_of(g);
            ACCEPTED
        }
        Err(refusal) => {
            *state = [0; 20];
            u32::from(refusal)
        }
    }
}

// A ZUC-128 generator, or BAD_KEY, BAD_IV.
pub fn zuc128_start(state: &mut [u32; 20], key: &[u8], iv: &[u8]) -> u32
    ensures { record { number = result; array = state.new } ≡ start_array (start₁₂₈ key.now iv.now) }
{
    put_start(state, keystream::zuc128::new(key, iv))
}

// A ZUC-256 generator, or BAD_KEY, BAD_IV.
pub fn zuc256_start(state: &mut [u32; 20], key: &[u8], iv: &[u8]) -> u32
    ensures { record { number = result; array = state.new } ≡ start_array (start₂₅₆ d-keystream key.now iv.now) }
{
    put_start(state, keystream::zuc256::new(key, iv))
}

// A generator of the EEA3 keystream, or BAD_KEY.
pub fn eea3_start(state: &mut [u32; 20], count: u32, bearer: u8, direction: u8, key: &[u8]) -> u32
    ensures { record { number = result; array = state.new } ≡ start_array (start-EEA3 count bearer direction key.now) }
{
    put_start(state, keystream::eea3::new(count, bearer, direction, key))
}

// The same of a bearer and a direction as given, or BAD_KEY, BAD_FIELD.
pub fn eea3_start_strict(
    state: &mut [u32; 20],
    count: u32,
    bearer: u8,
    direction: u8,
    key: &[u8],
) -> u32
    ensures { record { number = result; array = state.new } ≡ start_array (strict_start-EEA3 count bearer direction key.now) }
{
    put_start(
        state,
        keystream::eea3::new_strict(count, bearer, direction, key),
    )
}

// The next word, or BAD_STATE, SPENT. The draw is made in the array itself.
pub fn zuc_draw(state: &mut [u32; 20], word: &mut u32) -> u32
    ensures { record { number = result; word = word.new; array = state.new } ≡ draw_array (draw_outcome (held_in state.old)) }
{
    *word = 0;
    if !is_formed(state) {
        return u32::from(Refusal::BadState);
    }
    if !has_word(state) {
        return u32::from(Refusal::Spent);
    }
    *word = draw_in(state);
    ACCEPTED
}

// The next words, as many as are lent, or BAD_STATE, SPENT.
pub fn zuc_words(state: &mut [u32; 20], out: &mut [u32]) -> u32
    ensures { record { number = result; array = state.new; buffer = out.new } ≡ words_array (fill_outcome (held_in state.old) out.old) }
{
    let mut g = state_in(*state);
    let answer = keystream::fill(&mut g, out);
    *state = array_of(g);
    number_of(&answer)
}

// What a masking call answers and leaves goes into the count and the array, whatever its buffer became.
fn put_mask(
    answer: Result<usize, Refusal>,
    g: Generator,
    state: &mut [u32; 20],
    count: &mut usize,
) -> u32
    requires { (g.z.start < 2 ^ 32) × (g.count < 2 ^ 32) }
    ensures { (buffer : List ℕ) → record { number = result; count = count.new; array = state.new; buffer = buffer } ≡ mask_array (told answer g buffer) }
{
    *state = array_of(g);
    *count = answer.unwrap_or(0);
    number_of(&answer)
}

// A mask as the crate does it, or BAD_STATE, BAD_BITS, SPENT.
pub fn zuc_mask_crate(state: &mut [u32; 20], buf: &mut [u8], bits: usize, count: &mut usize) -> u32
    ensures { record { number = result; count = count.new; array = state.new; buffer = buf.new } ≡ mask_array (crate_outcome (held_in state.old) bits buf.old) }
{
    let mut g = state_in(*state);
    let answer = mask::mask_crate(&mut g, buf, bits);
    put_mask(answer, g, state, count)
}

// A mask with every bit past the length zeroed, or BAD_STATE, BAD_BITS, SPENT.
pub fn zuc_mask_clean(state: &mut [u32; 20], buf: &mut [u8], bits: usize, count: &mut usize) -> u32
    ensures { record { number = result; count = count.new; array = state.new; buffer = buf.new } ≡ mask_array (clean_outcome (held_in state.old) bits buf.old) }
{
    let mut g = state_in(*state);
    let answer = mask::mask_clean(&mut g, buf, bits);
    put_mask(answer, g, state, count)
}
