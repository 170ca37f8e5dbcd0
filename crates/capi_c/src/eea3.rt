// EEA3 in one call: exports of `capi::eea3`.
ghost use Rattle.std.specs.Prelude.{◌≡◌};
ghost use Rattle.mask.specs.Once.{clean-EEA3, crate-EEA3, strict_clean-EEA3, strict_crate-EEA3};

// As the crate does, or BAD_KEY, BAD_BITS, SPENT.
#[unsafe(no_mangle)]
pub extern "C" fn eea3_mask_crate(
    count: u32,
    bearer: u8,
    direction: u8,
    key: &[u8],
    buf: &mut [u8],
    bits: usize,
    drawn: &mut usize,
) -> u32
    ensures { record { number = result; count = drawn.new; buffer = buf.new } ≡ crate-EEA3 count bearer direction key.now bits buf.old }
{
    capi::eea3::eea3_mask_crate(count, bearer, direction, key, buf, bits, drawn)
}

// With every bit past the length zeroed, or BAD_KEY, BAD_BITS, SPENT.
#[unsafe(no_mangle)]
pub extern "C" fn eea3_mask_clean(
    count: u32,
    bearer: u8,
    direction: u8,
    key: &[u8],
    buf: &mut [u8],
    bits: usize,
    drawn: &mut usize,
) -> u32
    ensures { record { number = result; count = drawn.new; buffer = buf.new } ≡ clean-EEA3 count bearer direction key.now bits buf.old }
{
    capi::eea3::eea3_mask_clean(count, bearer, direction, key, buf, bits, drawn)
}

// Crate mode of a bearer and a direction as given, or BAD_KEY, BAD_FIELD, BAD_BITS, SPENT.
#[unsafe(no_mangle)]
pub extern "C" fn eea3_mask_crate_strict(
    count: u32,
    bearer: u8,
    direction: u8,
    key: &[u8],
    buf: &mut [u8],
    bits: usize,
    drawn: &mut usize,
) -> u32
    ensures { record { number = result; count = drawn.new; buffer = buf.new } ≡ strict_crate-EEA3 count bearer direction key.now bits buf.old }
{
    capi::eea3::eea3_mask_crate_strict(count, bearer, direction, key, buf, bits, drawn)
}

// Clean mode of the same, or BAD_KEY, BAD_FIELD, BAD_BITS, SPENT.
#[unsafe(no_mangle)]
pub extern "C" fn eea3_mask_clean_strict(
    count: u32,
    bearer: u8,
    direction: u8,
    key: &[u8],
    buf: &mut [u8],
    bits: usize,
    drawn: &mut usize,
) -> u32
    ensures { record { number = result; count = drawn.new; buffer = buf.new } ≡ strict_clean-EEA3 count bearer direction key.now bits buf.old }
{
    capi::eea3::eea3_mask_clean_strict(count, bearer, direction, key, buf, bits, drawn)
}
