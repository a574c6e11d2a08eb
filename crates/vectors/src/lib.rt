// The vector of bits behind a table of timers: a bit is 1 while its timer is not 0.
//
// Promises: each function is an equation with a definition of specs/, for every number of timers. Leaves to others: the
// timers (`timers`), and what a bit stands for (`pnc`).
#![tactic(auto)]

ghost use Rattle.std.specs.Prelude.{◌≡◌, ◌≤◌};
ghost use Rattle.vectors.specs.Vectors.{running_bit, vector_byte, vectors_differ};

// Does some bit of the first table's vector differ from the second's? Past the second's end its bits are 0.
pub fn vectors_differ(a: &[u16], b: &[u16]) -> bool
    ensures { result ≡ vectors_differ a.now b.now }
{
    let mut found = false;
    for (i, t) in a.iter().enumerate() {
        found |= (*t == 0) ^ (b.get(i).copied().unwrap_or(0) == 0);
    }
    found
}

// A timer's bit: 1 while it is not 0.
fn digit(t: u16) -> u8
    ensures { (result ≡ running_bit t) × (result ≤ 1) }
{
    u8::from(t != 0)
}

// The byte of the vector whose first bit is timer `at`.
pub fn vector_byte(timers: &[u16], at: usize) -> u8
    ensures { result ≡ vector_byte timers.now at }
{
    let mut byte = 0u8;
    for (i, t) in slices::part(timers, at, 8).iter().enumerate() {
        byte += digit(*t) << i;
    }
    byte
}
