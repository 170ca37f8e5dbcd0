// Generators: exports of `capi::generators`.
ghost use Rattle.std.specs.Prelude.{◌≡◌};
ghost use Rattle.capi_arrays.specs.Arrays.{held_in};
ghost use Rattle.capi.specs.Generators.{draw_array, mask_array, start_array, words_array};
ghost use Rattle.keystream.specs.Draws.{draw_outcome, fill_outcome};
ghost use Rattle.keystream.specs.Starts.{start₁₂₈, start₂₅₆, start-EEA3, strict_start-EEA3};
ghost use Rattle.mask.specs.Outcome.{clean_outcome, crate_outcome};
ghost use Rattle.standard.specs.Loading.{d-keystream};

// A ZUC-128 generator, or BAD_KEY, BAD_IV.
#[unsafe(no_mangle)]
pub extern "C" fn zuc128_start(state: &mut [u32; 20], key: &[u8], iv: &[u8]) -> u32
    ensures { record { number = result; array = state.new } ≡ start_array (start₁₂₈ key.now iv.now) }
{
    capi::generators::zuc128_start(state, key, iv)
}

// A ZUC-256 generator, or BAD_KEY, BAD_IV.
#[unsafe(no_mangle)]
pub extern "C" fn zuc256_start(state: &mut [u32; 20], key: &[u8], iv: &[u8]) -> u32
    ensures { record { number = result; array = state.new } ≡ start_array (start₂₅₆ d-keystream key.now iv.now) }
{
    capi::generators::zuc256_start(state, key, iv)
}

// A generator of the EEA3 keystream, or BAD_KEY.
#[unsafe(no_mangle)]
pub extern "C" fn eea3_start(
    state: &mut [u32; 20],
    count: u32,
    bearer: u8,
    direction: u8,
    key: &[u8],
) -> u32
    ensures { record { number = result; array = state.new } ≡ start_array (start-EEA3 count bearer direction key.now) }
{
    capi::generators::eea3_start(state, count, bearer, direction, key)
}

// The same of a bearer and a direction as given, or BAD_KEY, BAD_FIELD.
#[unsafe(no_mangle)]
pub extern "C" fn eea3_start_strict(
    state: &mut [u32; 20],
    count: u32,
    bearer: u8,
    direction: u8,
    key: &[u8],
) -> u32
    ensures { record { number = result; array = state.new } ≡ start_array (strict_start-EEA3 count bearer direction key.now) }
{
    capi::generators::eea3_start_strict(state, count, bearer, direction, key)
}

// The next word, or BAD_STATE, SPENT. The draw is made in the array itself.
#[unsafe(no_mangle)]
pub extern "C" fn zuc_draw(state: &mut [u32; 20], word: &mut u32) -> u32
    ensures { record { number = result; word = word.new; array = state.new } ≡ draw_array (draw_outcome (held_in state.old)) }
{
    capi::generators::zuc_draw(state, word)
}

// The next words, as many as are lent, or BAD_STATE, SPENT.
#[unsafe(no_mangle)]
pub extern "C" fn zuc_words(state: &mut [u32; 20], out: &mut [u32]) -> u32
    ensures { record { number = result; array = state.new; buffer = out.new } ≡ words_array (fill_outcome (held_in state.old) out.old) }
{
    capi::generators::zuc_words(state, out)
}

// A mask as the crate does it, or BAD_STATE, BAD_BITS, SPENT.
#[unsafe(no_mangle)]
pub extern "C" fn zuc_mask_crate(
    state: &mut [u32; 20],
    buf: &mut [u8],
    bits: usize,
    count: &mut usize,
) -> u32
    ensures { record { number = result; count = count.new; array = state.new; buffer = buf.new } ≡ mask_array (crate_outcome (held_in state.old) bits buf.old) }
{
    capi::generators::zuc_mask_crate(state, buf, bits, count)
}

// A mask with every bit past the length zeroed, or BAD_STATE, BAD_BITS, SPENT.
#[unsafe(no_mangle)]
pub extern "C" fn zuc_mask_clean(
    state: &mut [u32; 20],
    buf: &mut [u8],
    bits: usize,
    count: &mut usize,
) -> u32
    ensures { record { number = result; count = count.new; array = state.new; buffer = buf.new } ≡ mask_array (clean_outcome (held_in state.old) bits buf.old) }
{
    capi::generators::zuc_mask_clean(state, buf, bits, count)
}
