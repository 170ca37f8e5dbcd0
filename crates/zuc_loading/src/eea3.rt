// 128-EEA3: the IV that its start loads.
ghost use Rattle.std.specs.Prelude.{◌≡◌};
ghost use Rattle.standard.specs.Confidentiality.{IV-EEA3};

// The IV. A bearer keeps its low 5 bits, a direction its low bit.
pub fn iv(count: u32, bearer: u8, direction: u8) -> [u8; 16]
    ensures { result ≡ IV-EEA3 count bearer direction }
{
    let [c0, c1, c2, c3] = count.to_be_bytes();
    let c4 = bearer % 32 * 8 + direction % 2 * 4;
    [c0, c1, c2, c3, c4, 0, 0, 0, c0, c1, c2, c3, c4, 0, 0, 0]
}
