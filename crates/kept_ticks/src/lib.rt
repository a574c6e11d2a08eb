// A configuration that passes, with the ticks that are kept beside it.
//
// Promises: `configured` is the condition on the configuration of a sound state. Leaves to others: the rules (`rules`)
// and the other conditions (`conditions`, `pn_limits`, `soundness`).
#![tactic(auto)]

ghost use Rattle.std.specs.Prelude.{◌≡◌};
ghost use Rattle.time_rules.specs.TimeRules.{ticks_for};
ghost use Rattle.kept_ticks.specs.KeptTicks.{configured, same_ticks};

use config::{Config, Ticks};

// Are kept ticks what the times come to? By multiplying.
#[tactic(auto, unfolding(time_rules::specs::TimeRules::ticks_for))]
fn same_ticks(c: Config, t: Ticks) -> bool
    ensures { result ≡ same_ticks t (ticks_for c) }
{
    c.times
        .each()
        .iter()
        .zip(t.each().iter())
        .all(|(ms, n)| ticks::is_conversion(c.period, *ms, *n))
}

// Does the configuration pass, and are the kept ticks its own?
#[tactic(auto, using(crate::proofs::Kept::judged_alike))]
pub fn configured(c: Config, t: Ticks) -> bool
    ensures { result ≡ configured c t }
{
    rules::first_broken_by(c, t).is_ok() & same_ticks(c, t)
}
