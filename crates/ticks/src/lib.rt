// Milliseconds to ticks of the main function, rounded up, and a timer after one tick.
//
// Promises: the number of ticks for every period and time within their bounds, else which configuration rule
// refuses the pair. Leaves to others: which time belongs to which parameter (`config`).
//
// Nothing here divides: a small processor has no instruction for it, and would call a library routine.
#![tactic(auto)]

ghost use Rattle.std.specs.Prelude.{◌≡◌, eqb, leb, ltb, ◌-◌, ◌*◌, ◌≤◌, ◌&&◌};
ghost use Rattle.std.specs.Result.{result_unwrap_or};
ghost use Rattle.ticks.specs.LongDivision.{next_bit};
ghost use Rattle.ticks.specs.Ticks.{conversion_of, period_least, period_most, ticks_of, time_most};

use answers::BrokenRule;

// The period of the main function, in milliseconds: smallest and largest.
pub const PERIOD_LEAST: u64 = 1;

pub const PERIOD_MOST: u64 = 100;

// The largest time, in milliseconds, that a parameter may have.
pub const TIME_MOST: u64 = 65535;

// A bit of a quotient, and the remainder after it: not an `Option`, since both stand in either case.
#[derive(Clone, Copy)]
struct QuotientBit {
    bit: u16,
    remainder: u32,
}

// The bits of the largest number of ticks.
const QUOTIENT_BITS: u32 = 16;

// The next bit of a quotient, where the divisor is shifted to the place of that bit.
#[tactic(auto, unfolding(crate::specs::LongDivision::next_bit))]
fn next_bit(remainder: u32, shifted: u32) -> QuotientBit
    ensures { result ≡ next_bit remainder shifted }
{
    if remainder < shifted {
        return QuotientBit { bit: 0, remainder };
    }
    QuotientBit {
        bit: 1,
        remainder: remainder - shifted,
    }
}

// The number of ticks that last at least `ms` milliseconds, by long division in binary: the period, shifted above the
// highest bit of the quotient, comes down by one place for each bit until it stands at its own. No `for`: with a counter
// the compiler writes the loop out sixteen times, and `cannm_ticks` has 433 bytes of code where it has 100 with this loop.
fn rounded_up(period: u8, ms: u16) -> u16
    requires { period_least ≤ period }
    ensures { result ≡ ticks_of period ms }
{
    let divisor = period as u32;
    let mut quotient: u16 = 0;
    let mut remainder = ms as u32 + (divisor - 1);
    let mut shifted = divisor << QUOTIENT_BITS;
    while divisor < shifted {
        shifted = shifted >> 1;
        let next = next_bit(remainder, shifted);
        quotient = (quotient << 1) + next.bit;
        remainder = next.remainder;
    }
    quotient
}

// The number of ticks that last at least `ms` milliseconds, at `period` milliseconds a tick, or the rule that refuses
// the pair.
#[tactic(auto, unfolding(crate::specs::Ticks::conversion_of))]
pub fn to_ticks(period: u64, ms: u64) -> Result<u16, BrokenRule>
    ensures { result ≡ conversion_of period ms }
{
    if !(PERIOD_LEAST..=PERIOD_MOST).contains(&period) {
        return Err(BrokenRule::Period);
    }
    if TIME_MOST < ms {
        return Err(BrokenRule::Bounds);
    }
    Ok(rounded_up(period as u8, ms as u16))
}

// Do `count` ticks, and no fewer, last `ms` milliseconds?
fn covers(period: u64, ms: u64, count: u64) -> bool
    requires { (period ≤ period_most) × (count ≤ time_most) }
    ensures { result ≡ (leb ms (count * period) && ltb (count * period - ms) period) }
{
    let lasts = count * period;
    ms <= lasts && lasts - ms < period
}

// Is a number of ticks the one that `to_ticks` gives, 0 where it refuses the pair? Found by multiplying, so that a kept
// conversion is cheap to check. By `<`, since behind `contains` the proof did not find that the period is at least 1.
#[tactic(auto, using(crate::proofs::Rounding::covers_is), unfolding(crate::specs::Ticks::conversion_of))]
pub fn is_conversion(period: u64, ms: u64, ticks: u16) -> bool
    ensures { result ≡ eqb ticks (result_unwrap_or (conversion_of period ms) 0) }
{
    if period < PERIOD_LEAST || PERIOD_MOST < period || TIME_MOST < ms {
        return ticks == 0;
    }
    covers(period, ms, ticks as u64)
}

// A timer after one tick; a stopped one stays 0.
pub fn down(t: u16) -> u16
    ensures { result ≡ t - 1 }
{
    t.saturating_sub(1)
}
