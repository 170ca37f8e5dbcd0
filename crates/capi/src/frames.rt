// Sealed frames: the two keys and the whole frame are lent, and what a reader is told goes into four numbers.
ghost use Rattle.std.specs.Prelude.{List, ◌≡◌, ℕ};
ghost use Rattle.capi.specs.Frames.{read_array};
ghost use Rattle.frame.specs.Outcome.{read_outcome, read_told, write_outcome};

use frame::FrameFields;
use refusals::{Refusal, number_of};

// A frame written where its plain body lies, or BAD_KEY, BAD_FRAME, BAD_LENGTH, BAD_FIELD, BAD_BODY.
pub fn zuc_frame_write(
    ck: &[u8],
    ik: &[u8],
    count: u32,
    bearer: u8,
    direction: u8,
    bits: u32,
    frame: &mut [u8],
) -> u32
    ensures { record { number = result; frame = frame.new } ≡ write_outcome ck.now ik.now (record { COUNT = count; bearer = bearer; direction = direction; L = bits }) frame.old }
{
    let fields = FrameFields {
        count,
        bearer,
        direction,
        bits,
    };
    number_of(&frame::write(ck, ik, fields, frame))
}

// What a reader answers goes into the four numbers, whatever its frame became: zeros, where it refused.
fn put_fields(opened: Result<FrameFields, Refusal>, fields: &mut [u32; 4]) -> u32
    ensures { (frame : List ℕ) → record { number = result; fields = fields.new; frame = frame } ≡ read_array (read_told opened frame) }
{
    *fields = match opened {
        Ok(f) => [f.count, u32::from(f.bearer), u32::from(f.direction), f.bits],
        Err(_) => [0; 4],
    };
    number_of(&opened)
}

// A frame's plain body left where it lies, and COUNT, bearer, direction and L; or BAD_KEY, BAD_FRAME, BAD_LENGTH, BAD_FIELD, BAD_BODY, BAD_TAG.
pub fn zuc_frame_read(ck: &[u8], ik: &[u8], frame: &mut [u8], fields: &mut [u32; 4]) -> u32
    ensures { record { number = result; fields = fields.new; frame = frame.new } ≡ read_array (read_outcome ck.now ik.now frame.old) }
{
    let opened = frame::read(ck, ik, frame);
    put_fields(opened, fields)
}
