// The calls that bring no bytes: each by its number.
//
// Promises: each call gives the channel, answer and notes of channel's definition `replied`, over every channel handed
// in, refusals included. Leaves to others: the calls with bytes (`reception`, `inputs`), the main function (`tick`) and
// the status (`status`).
#![tactic(auto)]

ghost use Rattle.std.specs.Prelude.{◌≡◌};
ghost use Rattle.decision.specs.Decision.{confirm_pn_availability, disable_communication, enable_communication, network_release, network_request, passive_start_up, repeat_message_request, tx_confirmation};
ghost use Rattle.channel.specs.Channel.{replied};
ghost use Rattle.channel.specs.Moved.{finished, plainly};

use answers::Answer;
use channel::state::{Channel, Reply};
use decision::Rule;
use refusals::Tests;

// ---- a call by its number

// A call that changes no vector and no byte.
#[tactic(auto, unfolding(channel::specs::Moved::finished))]
fn finish(ch: Channel, a: Answer, rule: Rule, again: bool) -> Reply
    ensures { result ≡ finished ch a rule again }
{
    if a.is_ok() {
        return channel::moved(ch, rule, again, false, false);
    }
    channel::refused(ch, a)
}

// A call by its number, with what the table's rows 4 and 6 say of it. The eight public calls stay apart: each is one call of
// this, with its own clause.
#[tactic(auto, unfolding(channel::specs::Moved::plainly))]
fn plain(ch: Channel, call: u8, passive: bool, off: bool, heeded: bool) -> Reply
    ensures { result ≡ plainly ch call passive off heeded }
{
    let sound = ch.is_sound();
    let rule = decision::rule_of(ch.own.mode.state, call);
    let a = refusals::judge(Tests {
        sound,
        passive,
        off,
        elsewhere: decision::is_not_here(rule),
        size: false,
    });
    finish(ch, a, decision::heed(heeded, rule), false)
}

// ---- the calls

// The host asks for the network.
#[tactic(auto, using(channel::proofs::Numbers::by_number))]
pub fn network_request(ch: Channel) -> Reply
    ensures { result ≡ replied ch network_request }
{
    plain(
        ch,
        decision::NETWORK_REQUEST,
        ch.own.config.passive,
        false,
        true,
    )
}

// The host needs the network no longer.
#[tactic(auto, using(channel::proofs::Numbers::by_number))]
pub fn network_release(ch: Channel) -> Reply
    ensures { result ≡ replied ch network_release }
{
    plain(
        ch,
        decision::NETWORK_RELEASE,
        ch.own.config.passive,
        false,
        true,
    )
}

// The network was started by another node.
#[tactic(auto, using(channel::proofs::Numbers::by_number))]
pub fn passive_start_up(ch: Channel) -> Reply
    ensures { result ≡ replied ch passive_start_up }
{
    plain(ch, decision::PASSIVE_START_UP, false, false, true)
}

// The host asks all nodes to announce themselves.
#[tactic(auto, using(channel::proofs::Numbers::by_number))]
pub fn repeat_message_request(ch: Channel) -> Reply
    ensures { result ≡ replied ch repeat_message_request }
{
    plain(
        ch,
        decision::REPEAT_MESSAGE_REQUEST,
        ch.own.config.passive,
        false,
        true,
    )
}

#[tactic(auto, using(channel::proofs::Numbers::by_number))]
pub fn disable_communication(ch: Channel) -> Reply
    ensures { result ≡ replied ch disable_communication }
{
    plain(
        ch,
        decision::DISABLE_COMMUNICATION,
        ch.own.config.passive,
        false,
        true,
    )
}

#[tactic(auto, using(channel::proofs::Numbers::by_number))]
pub fn enable_communication(ch: Channel) -> Reply
    ensures { result ≡ replied ch enable_communication }
{
    plain(
        ch,
        decision::ENABLE_COMMUNICATION,
        ch.own.config.passive,
        false,
        true,
    )
}

// The driver's word on a frame that was sent: good or bad.
#[tactic(auto, using(channel::proofs::Numbers::by_number))]
pub fn tx_confirmation(ch: Channel, good: bool) -> Reply
    ensures { result ≡ replied ch (tx_confirmation good) }
{
    plain(
        ch,
        decision::TX_CONFIRMATION,
        ch.own.config.passive,
        false,
        good,
    )
}

// The partial-network filter is turned on.
#[tactic(auto, using(channel::proofs::Numbers::by_number))]
pub fn confirm_pn_availability(ch: Channel) -> Reply
    ensures { result ≡ replied ch confirm_pn_availability }
{
    let off = !ch.own.config.pn.on;
    plain(ch, decision::CONFIRM_PN_AVAILABILITY, false, off, true)
}
