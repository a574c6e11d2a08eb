// The main function: one tick.
//
// Promises: the channel, answer, notes and every byte of the lent frame by channel's definition `ticked_by`, over every
// channel handed in, refusals included. Leaves to others: what each step does (`mode_transitions`, `sending`, `notes`,
// `frames`).
#![tactic(auto)]

ghost use Rattle.std.specs.Prelude.{◌≡◌};
ghost use Rattle.channel.specs.Channel.{ticked, ticked_by};
ghost use Rattle.channel.specs.Told.{reply_of};

use answers::Refusal;
use channel::state::{Channel, Notes, Reply, Told};
use kept_channel::KeptChannel;
use refusals::Tests;

// The main function on a channel that is kept: `taken` says whether the driver takes a frame, which goes into the first bytes
// of the lent one.
pub fn main_function_in_place(
    k: &mut KeptChannel,
    taken: bool,
    frame: &mut [u8],
) -> Result<Told, Refusal>
    ensures { ticked (reply_of k.new result) frame.new ≡ ticked_by k.old taken frame.old }
{
    let sound = k.is_sound();
    let c = k.channel.own.config;
    let t = k.channel.own.ticks;
    let m = k.channel.own.mode;
    let old = k.channel.own.traffic;
    let rule = decision::rule_of(m.state, decision::MAIN_FUNCTION);
    let size = !(c.layout.length <= frame.len() as u64);
    refusals::judge(Tests {
        sound,
        passive: false,
        off: false,
        elsewhere: decision::is_not_here(rule),
        size,
    })?;
    // Steps a to d.
    let after = mode_transitions::mode_by(rule, false, t, m);
    let s = traffic::setup_of(c, t);
    let x = traffic_transitions::traffic_by(rule, false, s, m, after, old);
    let first = notes::first_by(rule, m, after);
    let second = notes::second_by(rule, m, old);
    // Step f without its frame, which no table and no byte of the channel depends on.
    let sent = taken & sending::is_due(s, after, x);
    k.channel.own.mode = after;
    k.channel.own.traffic = sending::framing(s, after, taken, x);
    // Step e, and what a sent frame loads.
    let er = timers::count_down(&mut k.channel.own.era);
    let ei = if sent {
        frames::send(c, x, &k.channel.own.requests, &k.channel.own.user, frame);
        frames::load_sent(c, t.reset, &k.channel.own.requests, &mut k.channel.eira)
    } else {
        timers::count_down(&mut k.channel.eira)
    };
    Ok(Told {
        notes: Notes {
            first,
            second,
            eira: ei,
            era: er,
        },
        sent,
    })
}

// The main function, a tick.
pub fn main_function(ch: Channel, taken: bool, frame: &mut [u8]) -> Reply
    ensures { ticked result frame.new ≡ ticked_by ch taken frame.old }
{
    let mut k = KeptChannel::new(ch);
    let told = main_function_in_place(&mut k, taken, frame);
    channel::reply_of(k.channel, told)
}
