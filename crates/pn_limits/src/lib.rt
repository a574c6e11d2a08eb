// The most that each PN timer of a sound state may hold.
//
// Promises: `put_limits` and `pair_under` are equations with the definitions of specs/. Leaves to others: which tables
// are compared with the limits (`soundness`).
#![tactic(auto)]

ghost use Rattle.std.specs.Prelude.{◌≡◌, ◌&&◌, ◌*◌, ◌≤◌, length, take};
ghost use Rattle.pn_limits.specs.Limits.{all_under, limits_of};
ghost use Rattle.pn_limits.specs.Mask.{filled_mask};

use config::{Config, PDU_MOST, PNC_MOST, Ticks};

// The most that each timer may hold: `reset` where its bit is in the mask, else 0.
fn put_where(mask: &[u8], reset: u16, limits: &mut [u16])
    requires { length limits.old ≤ 8 * length mask.now }
    ensures { limits.new ≡ limits_of mask.now reset limits.old }
{
    for (i, limit) in limits.iter_mut().enumerate() {
        let marked = bits::bit_of(mask[i / 8], (i % 8) as u8);
        *limit = choice::pick(marked, reset, 0);
    }
}

// The first n bytes of a mask, and zeros behind them, so that no loop over the timers has to test where the mask ends.
fn filled_mask(n: u64, mask: &[u8; PDU_MOST]) -> [u8; PDU_MOST]
    ensures { result ≡ filled_mask n mask.now }
{
    let mut filled = [0; PDU_MOST];
    slices::copy(slices::part(mask, 0, n as usize), &mut filled);
    filled
}

// The most that each PN timer may hold.
pub fn put_limits(c: Config, t: Ticks, limits: &mut [u16; PNC_MOST])
    ensures { limits.new ≡ limits_of (take c.pn.length c.pn.mask) t.reset limits.old }
{
    let filled = filled_mask(c.pn.length, &c.pn.mask);
    put_where(&filled, t.reset, limits);
}

// Is each timer of a table at most its limit? By place, and of all of them: `all` would stop at the first that is not, and a loop
// that stops is no vector code.
fn under(limits: &[u16], table: &[u16]) -> bool
    requires { length table.now ≤ length limits.now }
    ensures { result ≡ all_under limits.now table.now }
{
    let mut ok = true;
    for (i, t) in table.iter().enumerate() {
        ok &= *t <= limits[i];
    }
    ok
}

// Is each timer of both tables at most its limit?
pub fn pair_under<'a>(limits: &'a [u16], a: &'a [u16], b: &'a [u16]) -> bool
    requires { (length a.now ≤ length limits.now) × (length b.now ≡ length a.now) }
    ensures { result ≡ all_under limits.now a.now && all_under limits.now b.now }
{
    under(limits, a) & under(limits, b)
}
