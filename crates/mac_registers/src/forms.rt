// Well-formed states, and the state of zeros.
ghost use Rattle.std.specs.Prelude.{drop, length, true, ◌≡◌, ◌≤◌};
ghost use Prim.Native.Nat.{};
ghost use Rattle.standard.specs.Integrity.{is_width};
ghost use Rattle.mac_registers.specs.Stored.{stored_of};
ghost use Rattle.mac_registers.specs.Inner.{Holds};
ghost use Rattle.standard.specs.States.{all_zero, formed, unused, zero_stored};

use zuc::Zuc;

fn is_width(width: usize) -> bool
    ensures { result ≡ is_width width }
{
    matches!(width, 4 | 8 | 16)
}

fn all_zero(words: &[u64]) -> bool
    ensures { result ≡ all_zero words.now }
{
    words.iter().all(|w| *w == 0)
}

// Whether the bytes from one on are zero. Not one generic function with the test of words: the definition is of lists of numbers.
fn zero_from(rem: &[u8], from: usize) -> bool
    requires { from ≤ length rem.now }
    ensures { result ≡ all_zero (drop from rem.now) }
{
    rem[from..].iter().all(|b| *b == 0)
}

#[tactic(auto, unfolding(standard::specs::States::unused, standard::specs::States::all_zero))]
fn unused_zero(width: usize, key: [u64; 4], tag: [u64; 2]) -> bool
    ensures { result ≡ all_zero (unused width key tag) }
{
    match width {
        4 => all_zero(&[key[1], key[2], key[3], tag[0] >> 32, tag[1]]),
        8 => all_zero(&[key[2], key[3], tag[1]]),
        _ => true,
    }
}

// Whether a state is well formed; then it holds what the inner functions ask.
#[tactic(auto, unfolding(standard::specs::States::formed))]
pub fn is_formed(s: super::TagState) -> bool
    ensures formed { result ≡ formed (stored_of s) }
    ensures holds { result ≡ true → Holds (stored_of s) }
{
    zuc::is_well_formed(s.g)
        && is_width(s.width)
        && unused_zero(s.width, s.key, s.tag)
        && s.cnt < s.width
        && zero_from(&s.rem, s.cnt)
}

#[tactic(auto, unfolding(standard::specs::States::zero_stored, standard::specs::States::zeros, zuc::specs::Reading::cells_from))]
pub fn zero_state() -> super::TagState
    ensures { stored_of result ≡ zero_stored }
{
    super::TagState {
        g: Zuc {
            s: [0u32; 16],
            r1: 0,
            r2: 0,
            start: 0,
        },
        key: [0u64; 4],
        tag: [0u64; 2],
        rem: [0u8; 16],
        cnt: 0,
        width: 0,
    }
}
