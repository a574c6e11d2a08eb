// What each transition rule does to the mode.
//
// Promises: `mode_by` is a definition of specs/. Leaves to others: which rule it is (`decision`), the parts of a rule
// (`modes`, `mode_steps`), the traffic (`traffic_transitions`), and what is told (`notes`).
#![tactic(auto)]

ghost use Rattle.std.specs.Prelude.{◌≡◌};
ghost use Rattle.mode_transitions.specs.ModeTransitions.{mode_by};

use config::Ticks;
use decision::Rule;
use states::{Mode, State};

// The mode after a rule; `again` says that a PDU asks for Repeat Message. A `match`: each step takes other
// arguments, and a table of functions would have to be handed out. Ticks and mode stay two arguments, as setup and traffic do.
#[tactic(auto, unfolding(crate::specs::ModeTransitions::mode_by))]
pub fn mode_by(rule: Rule, again: bool, t: Ticks, m: Mode) -> Mode
    ensures { result ≡ mode_by rule again t m }
{
    match rule {
        Rule::Keep | Rule::NotHere | Rule::Start => m,
        Rule::WakeUp => modes::enter_network(t, m),
        Rule::ActiveWakeUp => modes::enter_network(
            t,
            Mode {
                requested: true,
                ..m
            },
        ),
        Rule::Request => Mode {
            requested: true,
            ..m
        },
        Rule::ToNormal => Mode {
            state: State::NormalOperation,
            requested: true,
            ..m
        },
        Rule::Release => Mode {
            requested: false,
            ..m
        },
        Rule::ToReady => Mode {
            state: State::ReadySleep,
            requested: false,
            ..m
        },
        Rule::Repeat => modes::enter_repeat(t, m),
        Rule::Disable => Mode {
            sending: false,
            ..m
        },
        Rule::Enable => modes::enabled(t, m),
        Rule::Confirm | Rule::HeardInRepeat => modes::restart(t, m),
        Rule::HeardInNormal | Rule::HeardInReady => modes::heard(again, t, m),
        Rule::FilterOn => Mode { filter: true, ..m },
        Rule::TickInPrepare => mode_steps::wait_in_prepare(m),
        Rule::TickInRepeat => mode_steps::repeat_in_repeat(mode_steps::nm_in_repeat_or_normal(
            t, m,
        )),
        Rule::TickInNormal => mode_steps::nm_in_repeat_or_normal(t, m),
        Rule::TickInReady => mode_steps::nm_in_ready(t, m),
    }
}
