// Sealed frames: exports of `capi::frames`.
ghost use Rattle.std.specs.Prelude.{◌≡◌};
ghost use Rattle.capi.specs.Frames.{read_array};
ghost use Rattle.frame.specs.Outcome.{read_outcome, write_outcome};

// A frame written where its plain body lies, or BAD_KEY, BAD_FRAME, BAD_LENGTH, BAD_FIELD, BAD_BODY.
#[unsafe(no_mangle)]
pub extern "C" fn zuc_frame_write(
    ck: &[u8],
    ik: &[u8],
    count: u32,
    bearer: u8,
    direction: u8,
    bits: u32,
    frame: &mut [u8],
) -> u32
    ensures { record { number = result; frame = frame.new } ≡ write_outcome ck.now ik.now (record { COUNT = count; bearer = bearer; direction = direction; L = bits }) frame.old }
{
    capi::frames::zuc_frame_write(ck, ik, count, bearer, direction, bits, frame)
}

// A frame's plain body left where it lies, and COUNT, bearer, direction and L; or BAD_KEY, BAD_FRAME, BAD_LENGTH, BAD_FIELD, BAD_BODY, BAD_TAG.
#[unsafe(no_mangle)]
pub extern "C" fn zuc_frame_read(
    ck: &[u8],
    ik: &[u8],
    frame: &mut [u8],
    fields: &mut [u32; 4],
) -> u32
    ensures { record { number = result; fields = fields.new; frame = frame.new } ≡ read_array (read_outcome ck.now ik.now frame.old) }
{
    capi::frames::zuc_frame_read(ck, ik, frame, fields)
}
