// The calls that set bytes: user data, PN requests.
//
// Promises: each call gives the channel, answer and notes of channel's definition `replied`, over every channel handed
// in and all bytes, refusals included. Leaves to others: which bytes a frame has (`frames`).
#![tactic(auto)]

ghost use Rattle.std.specs.Prelude.{◌≡◌};
ghost use Rattle.decision.specs.Decision.{set_pn_requests, set_user_data};
ghost use Rattle.channel.specs.Channel.{replied};

use channel::state::{Channel, Reply};
use refusals::Tests;

// The user data of the frames to come.
pub fn set_user_data(mut ch: Channel, bytes: &[u8]) -> Reply
    ensures { result ≡ replied ch (set_user_data bytes.now) }
{
    let c = ch.own.config;
    let sound = ch.is_sound();
    let rule = decision::rule_of(ch.own.mode.state, decision::SET_USER_DATA);
    let size = bytes.len() as u64 != config::user_length(c);
    let a = refusals::judge(Tests {
        sound,
        passive: c.passive,
        off: false,
        elsewhere: decision::is_not_here(rule),
        size,
    });
    if a.is_ok() {
        slices::copy(bytes, &mut ch.own.user);
        return channel::moved(ch, rule, false, false, false);
    }
    channel::refused(ch, a)
}

// The PN requests of the frames to come. Not one function with `set_user_data`: they differ in field, length and refusals.
pub fn set_pn_requests(mut ch: Channel, bytes: &[u8]) -> Reply
    ensures { result ≡ replied ch (set_pn_requests bytes.now) }
{
    let c = ch.own.config;
    let sound = ch.is_sound();
    let rule = decision::rule_of(ch.own.mode.state, decision::SET_PN_REQUESTS);
    let size = bytes.len() as u64 != c.pn.length;
    let a = refusals::judge(Tests {
        sound,
        passive: c.passive,
        off: !c.pn.on,
        elsewhere: decision::is_not_here(rule),
        size,
    });
    if a.is_ok() {
        slices::copy(bytes, &mut ch.own.requests);
        return channel::moved(ch, rule, false, false, false);
    }
    channel::refused(ch, a)
}
