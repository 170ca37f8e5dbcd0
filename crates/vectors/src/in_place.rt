// A draw of a generator that is lent, from one by value and back: whoever calls this makes no reference to a struct.
ghost use Rattle.std.specs.Prelude.{◌≡◌};
ghost use Rattle.keystream.specs.Draws.{draw_outcome, draw_told};
ghost use Rattle.zuc.specs.Reading.{counted_of};

use keystream::{Drew, generate_in_place};
use zuc::Generator;

pub fn drawn(z: Generator) -> Drew
    ensures { draw_told result.answer result.state ≡ draw_outcome (counted_of z) }
{
    let mut state = z;
    let answer = generate_in_place(&mut state);
    Drew { answer, state }
}
