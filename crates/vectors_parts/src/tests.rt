// What no clause says: the digits that a text tells, of types of each size.
ghost use Rattle.std.specs.Prelude.{◌≡◌, ◌*◌};

use crate::text::Text;

// A type of 16 bytes.
#[derive(Clone, Copy)]
struct Long {
    high: u64,
    low: u64,
}

impl From<Long> for u64 {
    ghost from_gives = { λ long n. n ≡ long.low };

    fn from(long: Long) -> u64 {
        long.low
    }
}

// A byte that stands for a number of more digits than a byte has.
#[derive(Clone, Copy)]
struct Scaled(u8);

impl From<Scaled> for u64 {
    ghost from_gives = { λ scaled n. n ≡ scaled.0 * 4096 };

    fn from(scaled: Scaled) -> u64 {
        u64::from(scaled.0) * 4096
    }
}

// A type of no byte.
#[derive(Clone, Copy)]
struct Nothing;

impl From<Nothing> for u64 {
    ghost from_gives = { λ nothing n. n ≡ 0 };

    fn from(_: Nothing) -> u64 {
        0
    }
}

#[test]
fn digits_as_a_type_is_wide(rt: HostRuntime) {
    let mut text = Text::<256>::new();
    let none: [u8; 0] = [];
    text.number(1809);
    text.hex(&none);
    text.hex(&[0u8, 7, 255]);
    text.hex(&[0x12au16]);
    text.hex(&[0x89ab_cdefu32, 1]);
    text.hex(&[0x0123_4567_89ab_cdefu64]);
    assert_eq!(rt;
        text.as_slice(),
        b"1809 - 0007ff 012a 89abcdef00000001 0123456789abcdef ".as_slice()
    );
}

#[test]
fn digits_past_the_table(rt: HostRuntime) {
    let mut text = Text::<256>::new();
    text.hex(&[Long { high: 1, low: 0x2f }]);
    text.hex(&[Scaled(0x9c), Scaled(0)]);
    text.hex(&[Nothing]);
    assert_eq!(rt;
        text.as_slice(),
        b"0000000000000000000000000000002f 9c00000 0 ".as_slice()
    );
}
