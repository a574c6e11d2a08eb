// The notes that each transition rule raises, and their order.
//
// Promises: each function is a definition of specs/. Leaves to others: EI and ER, which close a call (`channel`).
#![tactic(auto)]

ghost use Rattle.std.specs.Prelude.{◌≡◌};
ghost use Rattle.notes.specs.Notes.{cancelled, first_by, remote_sleeps, second_by, timed_out};

use decision::Rule;
use states::{Mode, Note, State, Traffic};

fn cancelled(x: Traffic) -> Option<Note>
    ensures { result ≡ cancelled x }
{
    x.indicated.then_some(Note::RemoteSleepCancelled)
}

fn timed_out(m: Mode) -> Option<Note>
    ensures { result ≡ timed_out m }
{
    (m.sending & (m.nm <= 1)).then_some(Note::Timeout)
}

fn remote_sleeps(m: Mode, x: Traffic) -> Option<Note>
    ensures { result ≡ remote_sleeps m x }
{
    (m.sending & (x.remote == 1)).then_some(Note::RemoteSleepIndication)
}

// The first note, with the mode before and after the rule.
#[tactic(auto, unfolding(crate::specs::Notes::first_by))]
pub fn first_by(rule: Rule, before: Mode, after: Mode) -> Option<Note>
    ensures { result ≡ first_by rule before after }
{
    match rule {
        Rule::WakeUp | Rule::ActiveWakeUp => Some(Note::NetworkMode),
        Rule::Start => Some(Note::NetworkStart),
        Rule::TickInPrepare => (after.state == State::BusSleep).then_some(Note::BusSleep),
        Rule::TickInRepeat | Rule::TickInNormal => timed_out(before),
        Rule::TickInReady => (after.state == State::PrepareBusSleep).then_some(
            Note::PrepareBusSleep,
        ),
        _ => None,
    }
}

// The second, with the mode and the traffic before the rule.
#[tactic(auto, unfolding(crate::specs::Notes::second_by))]
pub fn second_by(rule: Rule, before: Mode, x: Traffic) -> Option<Note>
    ensures { result ≡ second_by rule before x }
{
    match rule {
        Rule::WakeUp
        | Rule::ActiveWakeUp
        | Rule::Repeat
        | Rule::HeardInNormal
        | Rule::HeardInReady => cancelled(x),
        Rule::TickInNormal => remote_sleeps(before, x),
        _ => None,
    }
}
