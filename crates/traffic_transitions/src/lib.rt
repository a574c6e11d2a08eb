// What each transition rule does to the traffic: message and remote timers, fast count, indication and bits.
//
// Promises: `traffic_by` is a definition of specs/. Leaves to others: which rule it is (`decision`), the parts of a
// rule (`traffic`, `traffic_steps`), the mode (`mode_transitions`), and step f of a tick (`sending`).
#![tactic(auto)]

ghost use Rattle.std.specs.Prelude.{◌≡◌};
ghost use Rattle.traffic_transitions.specs.TrafficTransitions.{traffic_by};

use decision::Rule;
use states::{Mode, Traffic};
use traffic::Setup;

// The traffic after a rule, with the mode before and after it. A `match`: each step takes other arguments, and a table of
// functions would have to be handed out.
#[tactic(auto, unfolding(crate::specs::TrafficTransitions::traffic_by))]
pub fn traffic_by(
    rule: Rule,
    again: bool,
    s: Setup,
    before: Mode,
    after: Mode,
    x: Traffic,
) -> Traffic
    ensures { result ≡ traffic_by rule again s before after x }
{
    match rule {
        Rule::WakeUp => traffic::to_repeat(s, x),
        Rule::ActiveWakeUp => traffic::to_repeat_active(s, x),
        Rule::ToNormal => traffic::to_normal(s, x),
        Rule::ToReady => traffic::to_ready(x),
        Rule::Repeat => traffic::to_repeat_asked(s, x),
        Rule::Enable => traffic::resumed(before, x),
        Rule::HeardInNormal => traffic::heard_in_normal(again, s, x),
        Rule::HeardInReady => traffic::heard_in_ready(again, s, x),
        Rule::TickInRepeat => traffic_steps::in_repeat(s, after.state, x),
        Rule::TickInNormal => traffic_steps::in_normal(before, x),
        Rule::TickInReady => traffic_steps::in_ready(after.state, x),
        _ => x,
    }
}
