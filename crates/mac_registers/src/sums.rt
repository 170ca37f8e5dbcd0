// The sum of a key pair's windows at the set bits of a message word, by look-ups: no branch goes by a message bit.
ghost use Rattle.std.specs.Prelude.{length, ◌≡◌, ◌+◌, ◌*◌, ◌≤◌, ◌^◌};
ghost use Rattle.standard.specs.Bits.{M, window};
ghost use Rattle.mac_registers.specs.InnerLookup.{byte_looked_up, looked_up, multiples_of, summed};

// The pair's multiples by each of sixteen numbers of four bits: the bit worth 8 is the first, so it stands for the window highest up.
fn multiples(pair: u64) -> [u64; 16]
    ensures { result ≡ multiples_of pair }
{
    let b = pair >> 1;
    let c = pair >> 2;
    let d = pair >> 3;
    let ba = b ^ pair;
    let dc = d ^ c;
    [
        0,
        pair,
        b,
        ba,
        c,
        c ^ pair,
        c ^ b,
        c ^ ba,
        d,
        d ^ pair,
        d ^ b,
        d ^ ba,
        dc,
        dc ^ pair,
        dc ^ b,
        dc ^ ba,
    ]
}

// The two groups of four bits in a byte that has `at` bits of the word before it.
fn of_byte(table: &[u64; 16], b: u8, at: u32) -> u32
    requires { at ≤ 24 }
    ensures { result ≡ byte_looked_up table.now b at }
{
    let high = table[(b >> 4) as usize] >> (29 - at);
    let low = table[(b % 16) as usize] >> (25 - at);
    ((high ^ low) % 0x1_0000_0000) as u32
}

// Four bytes of a block, read as bytes: a group then costs one operation less than out of a word.
fn look_up(table: &[u64; 16], block: &[u8], at: usize) -> u32
    requires { at + 4 ≤ length block.now }
    ensures { result ≡ looked_up table.now (window (M block.now) (at * 8) 32) 8 }
{
    of_byte(table, block[at], 0)
        ^ of_byte(table, block[at + 1], 8)
        ^ of_byte(table, block[at + 2], 16)
        ^ of_byte(table, block[at + 3], 24)
}

// Two halves as one number of 64 bits.
pub fn joined(hi: u32, lo: u32) -> u64
    ensures { result ≡ hi * 2 ^ 32 + lo }
{
    ((hi as u64) << 32) + (lo as u64)
}

pub fn sum_32(key: u64, block: &[u8], at: usize) -> u32
    requires { at + 4 ≤ length block.now }
    ensures { result ≡ summed 32 key (window (M block.now) (at * 8) 32) }
{
    let table = multiples(key);
    look_up(&table, block, at)
}
