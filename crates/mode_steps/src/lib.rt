// The mode of a channel in a tick: steps a to c, the NM, the wait and the repeat timer.
//
// Promises: each function is a definition of specs/. Leaves to others: the calls (`modes`), and which rule has which
// step (`mode_transitions`).
#![tactic(auto)]

ghost use Rattle.std.specs.Prelude.{◌≡◌};
ghost use Rattle.mode_steps.specs.ModeSteps.{nm_in_ready, nm_in_repeat_or_normal, prepared, repeat_in_repeat, wait_in_prepare};

use config::Ticks;
use states::{Mode, State};

// Step a in Repeat Message and Normal Operation.
#[tactic(auto, unfolding(crate::specs::ModeSteps::nm_in_repeat_or_normal))]
pub fn nm_in_repeat_or_normal(t: Ticks, m: Mode) -> Mode
    ensures { result ≡ nm_in_repeat_or_normal t m }
{
    if m.sending {
        Mode {
            nm: choice::pick(m.nm <= 1, t.timeout, ticks::down(m.nm)),
            ..m
        }
    } else {
        m
    }
}

#[tactic(auto, unfolding(crate::specs::ModeSteps::prepared))]
fn prepared(t: Ticks, m: Mode) -> Mode
    ensures { result ≡ prepared t m }
{
    Mode {
        state: State::PrepareBusSleep,
        nm: 0,
        wait: t.wait,
        ..m
    }
}

// Step a in Ready Sleep.
#[tactic(auto, unfolding(crate::specs::ModeSteps::nm_in_ready))]
pub fn nm_in_ready(t: Ticks, m: Mode) -> Mode
    ensures { result ≡ nm_in_ready t m }
{
    if !m.sending {
        m
    } else if m.nm <= 1 {
        prepared(t, m)
    } else {
        Mode {
            nm: ticks::down(m.nm),
            ..m
        }
    }
}

// Step b.
#[tactic(auto, unfolding(crate::specs::ModeSteps::wait_in_prepare))]
pub fn wait_in_prepare(m: Mode) -> Mode
    ensures { result ≡ wait_in_prepare m }
{
    Mode {
        state: choice::pick(m.wait == 1, State::BusSleep, m.state),
        wait: ticks::down(m.wait),
        ..m
    }
}

// Step c.
#[tactic(auto, unfolding(crate::specs::ModeSteps::repeat_in_repeat))]
pub fn repeat_in_repeat(m: Mode) -> Mode
    ensures { result ≡ repeat_in_repeat m }
{
    let next = choice::pick(m.requested, State::NormalOperation, State::ReadySleep);
    Mode {
        state: choice::pick(m.repeat <= 1, next, m.state),
        repeat: ticks::down(m.repeat),
        ..m
    }
}
