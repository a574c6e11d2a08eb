// The reset timers behind a vector of bits, one for each bit: loading them and counting them down, for any number.
//
// Promises: each function is an equation with a definition of specs/, for every number of timers. Leaves to others: the
// vector (`vectors`), what a bit stands for (`pnc`), and when a timer is loaded or counted (`frames`, `tick`).
#![tactic(auto)]

ghost use Rattle.std.specs.Prelude.{◌≡◌, ◌*◌, ◌^◌, ◌<◌, min};
ghost use Rattle.timers.specs.Timers.{counted_down, loaded_where};
ghost use Rattle.vectors.specs.Vectors.{Changes};

// Every running timer one down. Answers whether the vector changed by it.
pub fn count_down(timers: &mut [u16]) -> bool
    ensures { Changes timers.old (counted_down timers.old) timers.new result }
{
    let mut fell = false;
    for t in timers.iter_mut() {
        fell |= *t == 1;
        *t = ticks::down(*t);
    }
    fell
}

// How many of `n` timers have a bit in so many bytes.
fn timers_of(bytes: usize, n: usize) -> usize
    ensures { result ≡ min (8 * bytes) n }
{
    bytes.saturating_mul(8).min(n)
}

// Each timer whose bit stands in the bytes and in the mask is loaded with `reset`. Timers past the end of either have no
// bit and are not looked at, so that the loop tests no bound. Answers whether the vector changed by it.
pub fn load_where(bytes: &[u8], mask: &[u8], reset: u16, timers: &mut [u16]) -> bool
    ensures { Changes timers.old (loaded_where bytes.now mask.now reset timers.old) timers.new result }
{
    let end = timers_of(bytes.len().min(mask.len()), timers.len());
    let mut changed = false;
    for (i, t) in timers[..end].iter_mut().enumerate() {
        let marked = bits::bit_of(bytes[i / 8], (i % 8) as u8)
            & bits::bit_of(mask[i / 8], (i % 8) as u8);
        let u = choice::pick(marked, reset, *t);
        changed |= (*t == 0) ^ (u == 0);
        *t = u;
    }
    changed
}
