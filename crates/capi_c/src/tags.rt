// Tags: exports of `capi::tags`.
ghost use Rattle.std.specs.Prelude.{◌≡◌};
ghost use Rattle.capi_arrays.specs.Arrays.{stored_in};
ghost use Rattle.capi.specs.Tags.{closing_array, tag_array, two_closing, two_once};
ghost use Rattle.mac.specs.Calls.{finish_outcome-128, finish_outcome-256, once_outcome-128, once_outcome-256, once_outcome-EIA3, start_outcome-128, start_outcome-256, start_outcome-EIA3, strict_once_outcome-EIA3, strict_start_outcome-EIA3, update_outcome};
ghost use Rattle.standard.specs.States.{formed-128, formed, tag_formed};

// A ZUC-128 tag state, or BAD_KEY, BAD_IV.
#[unsafe(no_mangle)]
pub extern "C" fn zuc128_tag_start(state: &mut [u64; 21], key: &[u8], iv: &[u8]) -> u32
    ensures { record { number = result; array = state.new } ≡ tag_array (start_outcome-128 key.now iv.now) }
{
    capi::tags::zuc128_tag_start(state, key, iv)
}

// An EIA3 tag state, or BAD_KEY.
#[unsafe(no_mangle)]
pub extern "C" fn eia3_tag_start(
    state: &mut [u64; 21],
    count: u32,
    bearer: u8,
    direction: u8,
    key: &[u8],
) -> u32
    ensures { record { number = result; array = state.new } ≡ tag_array (start_outcome-EIA3 count bearer direction key.now) }
{
    capi::tags::eia3_tag_start(state, count, bearer, direction, key)
}

// The same of a bearer and a direction as given, or BAD_KEY, BAD_FIELD.
#[unsafe(no_mangle)]
pub extern "C" fn eia3_tag_start_strict(
    state: &mut [u64; 21],
    count: u32,
    bearer: u8,
    direction: u8,
    key: &[u8],
) -> u32
    ensures { record { number = result; array = state.new } ≡ tag_array (strict_start_outcome-EIA3 count bearer direction key.now) }
{
    capi::tags::eia3_tag_start_strict(state, count, bearer, direction, key)
}

// A ZUC-256 tag state of a width in bytes, or BAD_WIDTH, BAD_KEY, BAD_IV.
#[unsafe(no_mangle)]
pub extern "C" fn zuc256_tag_start(
    state: &mut [u64; 21],
    width: usize,
    key: &[u8],
    iv: &[u8],
) -> u32
    ensures { record { number = result; array = state.new } ≡ tag_array (start_outcome-256 width key.now iv.now) }
{
    capi::tags::zuc256_tag_start(state, width, key, iv)
}

// More bytes of a message, of ZUC-128 or EIA3, or BAD_STATE, SPENT.
#[unsafe(no_mangle)]
pub extern "C" fn zuc128_tag_update(state: &mut [u64; 21], msg: &[u8]) -> u32
    ensures { record { number = result; array = state.new } ≡ tag_array (update_outcome (tag_formed formed-128 (stored_in state.old)) (stored_in state.old) msg.now) }
{
    capi::tags::zuc128_tag_update(state, msg)
}

// More bytes of a message, of ZUC-256, or BAD_STATE, SPENT.
#[unsafe(no_mangle)]
pub extern "C" fn zuc256_tag_update(state: &mut [u64; 21], msg: &[u8]) -> u32
    ensures { record { number = result; array = state.new } ≡ tag_array (update_outcome (tag_formed formed (stored_in state.old)) (stored_in state.old) msg.now) }
{
    capi::tags::zuc256_tag_update(state, msg)
}

// The tag of ZUC-128 or EIA3, and a state of zeros, or BAD_STATE, BAD_BITS, SPENT.
#[unsafe(no_mangle)]
pub extern "C" fn zuc128_tag_finish(
    state: &mut [u64; 21],
    tail: &[u8],
    bits: usize,
    tag: &mut [u64; 2],
) -> u32
    ensures { record { number = result; tag = tag.new; array = state.new } ≡ closing_array (two_closing (finish_outcome-128 (stored_in state.old) tail.now bits)) }
{
    capi::tags::zuc128_tag_finish(state, tail, bits, tag)
}

// The tag of ZUC-256, and a state of zeros, or BAD_STATE, BAD_BITS, SPENT.
#[unsafe(no_mangle)]
pub extern "C" fn zuc256_tag_finish(
    state: &mut [u64; 21],
    tail: &[u8],
    bits: usize,
    tag: &mut [u64; 2],
) -> u32
    ensures { record { number = result; tag = tag.new; array = state.new } ≡ closing_array (finish_outcome-256 (stored_in state.old) tail.now bits) }
{
    capi::tags::zuc256_tag_finish(state, tail, bits, tag)
}

// A ZUC-128 tag at once, or BAD_KEY, BAD_IV, BAD_BITS, SPENT.
#[unsafe(no_mangle)]
pub extern "C" fn zuc128_tag(
    key: &[u8],
    iv: &[u8],
    msg: &[u8],
    bits: usize,
    tag: &mut [u64; 2],
) -> u32
    ensures { record { number = result; tag = tag.new } ≡ two_once (once_outcome-128 key.now iv.now msg.now bits) }
{
    capi::tags::zuc128_tag(key, iv, msg, bits, tag)
}

// An EIA3 tag at once, or BAD_KEY, BAD_BITS, SPENT.
#[unsafe(no_mangle)]
pub extern "C" fn eia3_tag(
    count: u32,
    bearer: u8,
    direction: u8,
    key: &[u8],
    msg: &[u8],
    bits: usize,
    tag: &mut [u64; 2],
) -> u32
    ensures { record { number = result; tag = tag.new } ≡ two_once (once_outcome-EIA3 count bearer direction key.now msg.now bits) }
{
    capi::tags::eia3_tag(count, bearer, direction, key, msg, bits, tag)
}

// The same of a bearer and a direction as given, or BAD_KEY, BAD_FIELD, BAD_BITS, SPENT.
#[unsafe(no_mangle)]
pub extern "C" fn eia3_tag_strict(
    count: u32,
    bearer: u8,
    direction: u8,
    key: &[u8],
    msg: &[u8],
    bits: usize,
    tag: &mut [u64; 2],
) -> u32
    ensures { record { number = result; tag = tag.new } ≡ two_once (strict_once_outcome-EIA3 count bearer direction key.now msg.now bits) }
{
    capi::tags::eia3_tag_strict(count, bearer, direction, key, msg, bits, tag)
}

// A ZUC-256 tag at once, or BAD_WIDTH, BAD_KEY, BAD_IV, BAD_BITS, SPENT.
#[unsafe(no_mangle)]
pub extern "C" fn zuc256_tag(
    width: usize,
    key: &[u8],
    iv: &[u8],
    msg: &[u8],
    bits: usize,
    tag: &mut [u64; 2],
) -> u32
    ensures { record { number = result; tag = tag.new } ≡ once_outcome-256 width key.now iv.now msg.now bits }
{
    capi::tags::zuc256_tag(width, key, iv, msg, bits, tag)
}
