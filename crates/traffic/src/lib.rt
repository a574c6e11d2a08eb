// Message and remote timers, fast count, indication and bits: what the transition rules of the calls change.
//
// Promises: each function is a definition of specs/. It sees the mode before a rule. Leaves to others: the tick
// (`traffic_steps`, step f `sending`), which rule has which part (`traffic_transitions`), the mode itself (`modes`),
// what is told (`notes`).
#![tactic(auto)]

ghost use Rattle.std.specs.Prelude.{◌≡◌};
ghost use Rattle.traffic.specs.Traffic.{first_message, heard_in_normal, heard_in_ready, resumed, setup_of, to_normal, to_ready, to_repeat, to_repeat_active, to_repeat_asked, watching, with_fast};

use config::{Config, Ticks};
use states::{Mode, Traffic};

// What the rules here need of the configuration. A setup and a traffic stay two arguments: no fact ties them, and a
// struct of both would be taken apart and built again in each rule.
#[derive(Clone, Copy)]
pub struct Setup {
    pub ticks: Ticks,
    pub immediate: u16,
    pub passive: bool,
}

#[tactic(auto, unfolding(crate::specs::Traffic::setup_of))]
pub fn setup_of(c: Config, t: Ticks) -> Setup
    ensures { result ≡ setup_of c t }
{
    Setup {
        ticks: t,
        immediate: choice::narrow16(c.immediate),
        passive: c.passive,
    }
}

fn first_message(s: Setup) -> u16
    ensures { result ≡ first_message s }
{
    if s.passive { 0 } else { s.ticks.offset.max(1) }
}

#[tactic(auto, unfolding(crate::specs::Traffic::to_repeat))]
pub fn to_repeat(s: Setup, x: Traffic) -> Traffic
    ensures { result ≡ to_repeat s x }
{
    Traffic {
        message: first_message(s),
        fast: 0,
        remote: 0,
        indicated: false,
        ..x
    }
}

// Starts fast frames (AUTOSAR: immediate transmissions), if there are any.
fn fast_frames(s: Setup, x: Traffic) -> Traffic
    ensures { result ≡ with_fast s x }
{
    let any = 0 < s.immediate;
    Traffic {
        message: choice::pick(any, 1, x.message),
        fast: choice::pick(any, s.immediate, x.fast),
        ..x
    }
}

// Repeat Message, with fast frames.
fn to_repeat_fast(s: Setup, x: Traffic) -> Traffic
    ensures { result ≡ with_fast s (to_repeat s x) }
{
    fast_frames(s, to_repeat(s, x))
}

#[tactic(auto, unfolding(crate::specs::Traffic::to_repeat_active))]
pub fn to_repeat_active(s: Setup, x: Traffic) -> Traffic
    ensures { result ≡ to_repeat_active s x }
{
    let awake = Traffic { waking: true, ..x };
    to_repeat_fast(s, awake)
}

#[tactic(auto, unfolding(crate::specs::Traffic::to_repeat_asked))]
pub fn to_repeat_asked(s: Setup, x: Traffic) -> Traffic
    ensures { result ≡ to_repeat_asked s x }
{
    let asked = Traffic {
        repeating: true,
        ..x
    };
    to_repeat_fast(s, asked)
}

// The remote timer where Normal Operation starts it.
pub fn watching(s: Setup, x: Traffic) -> u16
    ensures { result ≡ watching s x }
{
    choice::pick(x.indicated, 0, s.ticks.remote)
}

#[tactic(auto, unfolding(crate::specs::Traffic::to_normal))]
pub fn to_normal(s: Setup, x: Traffic) -> Traffic
    ensures { result ≡ to_normal s x }
{
    Traffic {
        message: 1,
        remote: watching(s, x),
        ..x
    }
}

#[tactic(auto, unfolding(crate::specs::Traffic::to_ready))]
pub fn to_ready(x: Traffic) -> Traffic
    ensures { result ≡ to_ready x }
{
    Traffic {
        message: 0,
        remote: 0,
        ..x
    }
}

#[tactic(auto, unfolding(crate::specs::Traffic::resumed))]
pub fn resumed(m: Mode, x: Traffic) -> Traffic
    ensures { result ≡ resumed m x }
{
    let stopped = !m.sending & states::transmits(m.state);
    Traffic {
        message: choice::pick(stopped, 1, x.message),
        ..x
    }
}

// As in Ready Sleep, and the remote timer starts again.
#[tactic(auto, unfolding(crate::specs::Traffic::heard_in_normal, crate::specs::Traffic::heard_in_ready, crate::specs::Traffic::to_repeat))]
pub fn heard_in_normal(again: bool, s: Setup, x: Traffic) -> Traffic
    ensures { result ≡ heard_in_normal again s x }
{
    let restarted = Traffic {
        remote: s.ticks.remote,
        ..x
    };
    heard_in_ready(again, s, restarted)
}

#[tactic(auto, unfolding(crate::specs::Traffic::heard_in_ready))]
pub fn heard_in_ready(again: bool, s: Setup, x: Traffic) -> Traffic
    ensures { result ≡ heard_in_ready again s x }
{
    if again {
        to_repeat(s, x)
    } else {
        Traffic {
            indicated: false,
            ..x
        }
    }
}
