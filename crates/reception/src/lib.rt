// A PDU received.
//
// Promises: the channel, answer and notes of channel's definition `replied`, over every channel handed in and all bytes,
// refusals included. Leaves to others: what the filter decides and which timers a PDU loads (`heard`).
#![tactic(auto)]

ghost use Rattle.std.specs.Prelude.{◌≡◌};
ghost use Rattle.decision.specs.Decision.{rx_indication};
ghost use Rattle.channel.specs.Channel.{replied};
ghost use Rattle.channel.specs.Told.{reply_of};

use answers::Refusal;
use channel::state::{Channel, Reply, Told};
use decision::Rule;
use kept_channel::KeptChannel;
use refusals::Tests;

// A PDU was received, by a channel that is kept.
pub fn rx_indication_in_place(k: &mut KeptChannel, pdu: &[u8]) -> Result<Told, Refusal>
    ensures { reply_of k.new result ≡ replied k.old (rx_indication pdu.now) }
{
    let sound = k.is_sound();
    let c = k.channel.own.config;
    let m = k.channel.own.mode;
    let reset = k.channel.own.ticks.reset;
    let rule = decision::rule_of(m.state, decision::RX_INDICATION);
    let size = pdu.len() as u64 != c.layout.length;
    refusals::judge(Tests {
        sound,
        passive: false,
        off: false,
        elsewhere: decision::is_not_here(rule),
        size,
    })?;
    if !heard::accepted(c, m.filter, pdu) {
        return Ok(channel::move_by(&mut k.channel, Rule::Keep, false, false, false));
    }
    let again = heard::asks_repeat(c, pdu);
    let er = heard::load_heard(c, reset, pdu, &mut k.channel.own.era);
    let ei = heard::load_heard(c, reset, pdu, &mut k.channel.eira);
    Ok(channel::move_by(&mut k.channel, rule, again, ei, er))
}

// A PDU was received.
pub fn rx_indication(ch: Channel, pdu: &[u8]) -> Reply
    ensures { result ≡ replied ch (rx_indication pdu.now) }
{
    let mut k = KeptChannel::new(ch);
    let told = rx_indication_in_place(&mut k, pdu);
    channel::reply_of(k.channel, told)
}
