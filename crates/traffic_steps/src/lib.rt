// Message and remote timers, fast count, indication and bits in a tick: steps a, c and d.
//
// Promises: each function is a definition of specs/. It sees the mode before or after the step. Leaves to others: the
// calls (`traffic`), step f (`sending`), and which rule has which step (`traffic_transitions`).
#![tactic(auto)]

ghost use Rattle.std.specs.Prelude.{◌≡◌};
ghost use Rattle.traffic_steps.specs.TrafficSteps.{in_normal, in_ready, in_repeat};

use states::{Mode, State, Traffic};
use traffic::Setup;

// Step a in Ready Sleep.
#[tactic(auto, unfolding(crate::specs::TrafficSteps::in_ready))]
pub fn in_ready(after: State, x: Traffic) -> Traffic
    ensures { result ≡ in_ready after x }
{
    if after == State::PrepareBusSleep {
        Traffic {
            indicated: false,
            waking: false,
            ..x
        }
    } else {
        x
    }
}

// Step c.
#[tactic(auto, unfolding(crate::specs::TrafficSteps::in_repeat))]
pub fn in_repeat(s: Setup, after: State, x: Traffic) -> Traffic
    ensures { result ≡ in_repeat s after x }
{
    let left = Traffic {
        fast: 0,
        repeating: false,
        ..x
    };
    match after {
        State::RepeatMessage => x,
        State::NormalOperation => Traffic {
            remote: traffic::watching(s, x),
            ..left
        },
        _ => Traffic {
            message: 0,
            remote: 0,
            ..left
        },
    }
}

// Step d.
#[tactic(auto, unfolding(crate::specs::TrafficSteps::in_normal))]
pub fn in_normal(m: Mode, x: Traffic) -> Traffic
    ensures { result ≡ in_normal m x }
{
    if m.sending & (0 < x.remote) {
        Traffic {
            remote: ticks::down(x.remote),
            indicated: x.remote <= 1,
            ..x
        }
    } else {
        x
    }
}
