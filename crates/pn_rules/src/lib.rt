// Rule 8 of a configuration: the partial network.
//
// Promises: each function is a definition of specs/. Leaves to others: which rule is broken first (`rules`).
#![tactic(auto)]

ghost use Rattle.std.specs.Prelude.{◌≡◌};
ghost use Rattle.pn_rules.specs.PnRules.{pn_absent, pn_range, pn_time, rule8};

use config::{Config, Ticks};

#[tactic(auto, unfolding(crate::specs::PnRules::pn_range))]
fn pn_range_rule(c: Config) -> bool
    ensures { result ≡ pn_range c }
{
    let h = config::header_length(c.layout);
    let end = c.pn.start.checked_add(c.pn.length);
    (1 <= c.pn.length)
        & (h <= c.pn.start)
        & end.is_some_and(|end| end <= c.layout.length)
        & ((c.pn.start == h) | (end == Some(c.layout.length)))
}

#[tactic(auto, unfolding(crate::specs::PnRules::pn_time))]
fn pn_time_rule(t: Ticks) -> bool
    ensures { result ≡ pn_time t }
{
    (t.cycle < t.reset) & (t.reset < t.timeout)
}

#[tactic(auto, unfolding(crate::specs::PnRules::pn_absent))]
fn pn_absent_rule(c: Config) -> bool
    ensures { result ≡ pn_absent c }
{
    (c.pn.start == 0) & (c.pn.length == 0) & (c.times.reset == 0)
}

#[tactic(auto, unfolding(crate::specs::PnRules::rule8))]
pub fn pn_rule(c: Config, t: Ticks) -> bool
    ensures { result ≡ rule8 c t }
{
    if c.pn.on {
        (c.layout.cbv != config::OFF)
            & pn_range_rule(c)
            & (c.pn.masked == c.pn.length)
            & pn_time_rule(t)
    } else {
        pn_absent_rule(c)
    }
}
