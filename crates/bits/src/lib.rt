// Byte strings as vectors of bits: every loop over them that partial networking needs, over any length.
//
// Promises: each function is an equation with a definition of specs/, for every length. Leaves to others: what a
// bit stands for (`pnc`), and the reset timers behind it (`timers`).
#![tactic(auto)]

ghost use Rattle.std.specs.Prelude.{◌≡◌, ◌^◌, ◌<◌, length};
ghost use Rattle.std.specs.Int.Count.{count_trailing_zeros};
ghost use Rattle.bits.specs.Bits.{bit_of, bit_at, some_masked, count_ones, lowest_in};

// ---- bits of bytes

// Bit k of a byte; a byte has no bit 8 or above.
#[tactic(auto, using(crate::proofs::Bits::bit_above))]
pub fn bit_of(b: u8, k: u8) -> bool
    ensures { result ≡ bit_of b k }
{
    k < 8 && (b >> k) % 2 == 1
}

// Bit k of a byte string, 0 past its end.
pub fn bit_at(bytes: &[u8], k: usize) -> bool
    ensures { result ≡ bit_at bytes.now k }
{
    bit_of(bytes.get(k / 8).copied().unwrap_or(0), (k % 8) as u8)
}

// Is some byte AND its mask byte not 0? A mask that is shorter reads 0 past its end.
pub fn some_masked(bytes: &[u8], mask: &[u8]) -> bool
    ensures { result ≡ some_masked bytes.now mask.now }
{
    bytes.iter().zip(mask).any(|(b, m)| *b & *m != 0)
}

// How many bits are 1, summed over the bytes.
pub fn count_ones(bytes: &[u8]) -> u32
    requires { length bytes.now < 2 ^ 28 }
    ensures { result ≡ count_ones bytes.now }
{
    bytes.iter().map(|b| u8::count_ones(*b)).sum()
}

// The zeros below a byte's lowest 1: 8 where it has none.
fn trailing_zeros(b: u8) -> usize
    ensures { result ≡ count_trailing_zeros 8 b }
{
    u8::trailing_zeros(b) as usize
}

// The place of the lowest bit that is 1: in the first byte that is not 0, above its trailing zeros.
pub fn lowest_one(bytes: &[u8]) -> Option<u32>
    requires { length bytes.now < 2 ^ 28 }
    ensures { result ≡ lowest_in bytes.now }
{
    for (i, b) in bytes.iter().enumerate() {
        if *b != 0 {
            return Some((8 * i + trailing_zeros(*b)) as u32);
        }
    }
    None
}
