// The mode of a channel, its state with its flags and the NM, wait and repeat timers: what the transition rules of the
// calls change.
//
// Promises: each function is a definition of specs/. Leaves to others: the tick (`mode_steps`), which rule has which
// part (`mode_transitions`), and the rest of a channel (`traffic`).
#![tactic(auto)]

ghost use Rattle.std.specs.Prelude.{◌≡◌};
ghost use Rattle.modes.specs.Mode.{enabled, enter_network, enter_repeat, heard, restart, with_state};

use config::Ticks;
use states::{Mode, State};

// The same in another state: no more than struct update, which the rules use; docs/PROMISES.md names it.
pub fn with_state(m: Mode, s: State) -> Mode
    ensures { result ≡ with_state s m }
{
    Mode { state: s, ..m }
}

#[tactic(auto, unfolding(crate::specs::Mode::enter_repeat))]
pub fn enter_repeat(t: Ticks, m: Mode) -> Mode
    ensures { result ≡ enter_repeat t m }
{
    Mode {
        state: State::RepeatMessage,
        repeat: t.repeat,
        ..m
    }
}

#[tactic(auto, unfolding(crate::specs::Mode::enter_network))]
pub fn enter_network(t: Ticks, m: Mode) -> Mode
    ensures { result ≡ enter_network t m }
{
    enter_repeat(
        t,
        Mode {
            nm: t.timeout,
            wait: 0,
            ..m
        },
    )
}

#[tactic(auto, unfolding(crate::specs::Mode::restart))]
pub fn restart(t: Ticks, m: Mode) -> Mode
    ensures { result ≡ restart t m }
{
    Mode {
        nm: choice::pick(m.sending, t.timeout, m.nm),
        ..m
    }
}

#[tactic(auto, unfolding(crate::specs::Mode::heard))]
pub fn heard(again: bool, t: Ticks, m: Mode) -> Mode
    ensures { result ≡ heard again t m }
{
    let n = restart(t, m);
    if again { enter_repeat(t, n) } else { n }
}

#[tactic(auto, unfolding(crate::specs::Mode::enabled))]
pub fn enabled(t: Ticks, m: Mode) -> Mode
    ensures { result ≡ enabled t m }
{
    Mode {
        nm: choice::pick(m.sending, m.nm, t.timeout),
        sending: true,
        ..m
    }
}
