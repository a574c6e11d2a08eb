// Rules 1 to 5 of a configuration, and its times in ticks.
//
// Promises: each function is a definition of specs/. Leaves to others: the fields and their bounds (`config`), the
// conversion (`ticks`), and which rule is broken first (`rules`).
#![tactic(auto)]

ghost use Rattle.std.specs.Prelude.{◌≡◌};
ghost use Rattle.time_rules.specs.TimeRules.{in_ticks, rule1, rule2, rule3, rule4, rule5, ticks_for, times_within};

use config::{Config, Milliseconds, Ticks};

// A time in ticks of the main function.
fn in_ticks(c: Config, ms: u64) -> u16
    ensures { result ≡ in_ticks c ms }
{
    ticks::to_ticks(c.period, ms).unwrap_or(0)
}

// The times of a configuration in ticks; all 0 where the period is out of bounds.
#[tactic(auto, unfolding(crate::specs::TimeRules::ticks_for))]
pub fn ticks_for(c: Config) -> Ticks
    ensures { result ≡ ticks_for c }
{
    c.times.map(|ms| in_ticks(c, ms))
}

#[tactic(auto, unfolding(crate::specs::TimeRules::times_within))]
fn times_within(t: Milliseconds) -> bool
    ensures { result ≡ times_within t }
{
    t.each()
        .iter()
        .enumerate()
        .all(|(k, ms)| config::in_bounds(config::TIMEOUT + k, *ms))
}

#[tactic(auto, unfolding(crate::specs::TimeRules::rule1))]
pub fn period_rule(c: Config) -> bool
    ensures { result ≡ rule1 c }
{
    config::in_bounds(config::PERIOD, c.period)
}

#[tactic(auto, unfolding(crate::specs::TimeRules::rule2))]
pub fn bounds_rule(c: Config) -> bool
    ensures { result ≡ rule2 c }
{
    times_within(c.times)
        & config::in_bounds(config::IMMEDIATE, c.immediate)
        & config::in_bounds(config::NODE, c.node)
}

#[tactic(auto, unfolding(crate::specs::TimeRules::rule3))]
pub fn offset_rule(t: Ticks) -> bool
    ensures { result ≡ rule3 t }
{
    t.offset < t.cycle
}

#[tactic(auto, unfolding(crate::specs::TimeRules::rule4))]
pub fn fast_rule(c: Config, t: Ticks) -> bool
    ensures { result ≡ rule4 c t }
{
    (c.immediate == 0) | (1 <= t.fast)
}

#[tactic(auto, unfolding(crate::specs::TimeRules::rule5))]
pub fn timeout_rule(t: Ticks) -> bool
    ensures { result ≡ rule5 t }
{
    t.cycle < t.timeout
}
