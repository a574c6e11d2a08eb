// The conditions of a sound state on its timers, flags and bits, but those of the PN timers.
//
// Promises: each function is a definition of specs/. Leaves to others: the configuration (`kept_ticks`), the PN timers
// (`pn_limits`), and all conditions together (`soundness`).
#![tactic(auto)]

ghost use Rattle.std.specs.Prelude.{◌≡◌};
ghost use Rattle.conditions.specs.Conditions.{larger, mode_sound, only, passive_sound, request_fits, runs, traffic_sound};

use config::Ticks;
use states::{Mode, State, Traffic, in_network, settled, transmits};
use traffic::Setup;

// Does a timer run, from 1 to its limit, exactly where it should?
fn runs(running: bool, limit: u16, n: u16) -> bool
    ensures { result ≡ runs running limit n }
{
    if running {
        (1..=limit).contains(&n)
    } else {
        n == 0
    }
}

// Does the flag of a request fit the state?
fn request_fits(requested: bool, s: State) -> bool
    ensures { result ≡ request_fits requested s }
{
    if requested {
        matches!(s, State::RepeatMessage | State::NormalOperation)
    } else {
        s != State::NormalOperation
    }
}

#[tactic(auto, unfolding(crate::specs::Conditions::mode_sound))]
pub fn mode_sound(t: Ticks, m: Mode) -> bool
    ensures { result ≡ mode_sound t m }
{
    let s = m.state;
    runs(in_network(s), t.timeout, m.nm)
        & runs(s == State::PrepareBusSleep, t.wait, m.wait)
        & runs(s == State::RepeatMessage, t.repeat, m.repeat)
        & request_fits(m.requested, s)
        & (m.sending | in_network(s))
}

// A flag that is set only where a test holds.
fn only(flag: bool, test: bool) -> bool
    ensures { result ≡ only flag test }
{
    !flag | test
}

// The most that the message timer may hold.
fn message_limit(s: Setup) -> u16
    ensures { result ≡ larger s.ticks.cycle s.ticks.fast }
{
    s.ticks.cycle.max(s.ticks.fast)
}

#[tactic(auto, unfolding(crate::specs::Conditions::traffic_sound))]
pub fn traffic_sound(s: Setup, m: State, x: Traffic) -> bool
    ensures { result ≡ traffic_sound s m x }
{
    let repeat = m == State::RepeatMessage;
    let normal = m == State::NormalOperation;
    let watched = 0 < s.ticks.remote;
    runs(transmits(m) & !s.passive, message_limit(s), x.message)
        & (x.fast <= choice::pick(repeat, s.immediate, 0))
        & runs(normal & watched & !x.indicated, s.ticks.remote, x.remote)
        & only(x.repeating, repeat)
        & only(x.waking, in_network(m))
        & only(x.indicated, settled(m) & watched)
}

#[tactic(auto, unfolding(crate::specs::Conditions::passive_sound))]
pub fn passive_sound(passive: bool, m: Mode, x: Traffic) -> bool
    ensures { result ≡ passive_sound passive m x }
{
    let normal = m.state == State::NormalOperation;
    only(
        passive,
        !m.requested & m.sending & !x.indicated & !normal & !x.repeating & !x.waking,
    )
}
