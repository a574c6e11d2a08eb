// The first broken rule of a configuration.
//
// Promises: the first of the eight rules that is broken, if one is, for every configuration whatever its numbers. Leaves to
// others: the rules themselves (`time_rules`, `header_rules`, `pn_rules`).
#![tactic(auto)]

ghost use Rattle.std.specs.Prelude.{◌≡◌};
ghost use Rattle.rules.specs.Rules.{first_broken, first_broken_by};

use answers::BrokenRule;
use config::{Config, Ticks};

// With the ticks that its times come to.
#[tactic(auto, unfolding(crate::specs::Rules::first_broken_by, header_rules::specs::HeaderRules::first_broken_of_header))]
pub fn first_broken_by(c: Config, t: Ticks) -> Result<(), BrokenRule>
    ensures { result ≡ first_broken_by c t }
{
    BrokenRule::Period.unless(time_rules::period_rule(c))?;
    BrokenRule::Bounds.unless(time_rules::bounds_rule(c))?;
    BrokenRule::Offset.unless(time_rules::offset_rule(t))?;
    BrokenRule::FastCycle.unless(time_rules::fast_rule(c, t))?;
    BrokenRule::Timeout.unless(time_rules::timeout_rule(t))?;
    header_rules::first_broken_of_header(c.layout)?;
    BrokenRule::PartialNetwork.unless(pn_rules::pn_rule(c, t))
}

// Of the configuration alone.
#[tactic(auto, unfolding(crate::specs::Rules::first_broken))]
pub fn first_broken_rule(c: Config) -> Result<(), BrokenRule>
    ensures { result ≡ first_broken c }
{
    first_broken_by(c, time_rules::ticks_for(c))
}
