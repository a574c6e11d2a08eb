// One CanNm channel: its value, the fresh one, and what calls end in: a reply, or what a call tells of a channel that it
// changes in place. specs/Channel says what every call gives.
//
// Promises: each function is a definition of specs/. Leaves to others: the calls themselves (`calls`, `status`,
// `reception`, `inputs`, `tick`), in which tick Bus-Sleep is entered, over whole lists of calls (`sleep`), and the CAN driver.
#![tactic(auto)]

ghost use Rattle.std.specs.Prelude.{◌≡◌};
ghost use Rattle.channel.specs.Channel.{fresh, fresh_mode, initialised, refused, sound, zero};
ghost use Rattle.channel.specs.Moved.{moved_by};
ghost use Rattle.channel.specs.Told.{reply_of};

use answers::{Answer, Refusal};
use config::{Config, PDU_MOST, PNC_MOST, Ticks, Times};
use decision::Rule;
use state::{Channel, Notes, Own, Reply, Started, Told};
use states::{Mode, Traffic};

pub mod state;

// ---- replies

// The same channel, with an answer.
#[tactic(auto, unfolding(crate::specs::Channel::refused))]
pub fn refused(ch: Channel, a: Answer) -> Reply
    ensures { result ≡ refused ch a }
{
    Reply {
        channel: ch,
        answer: a,
        notes: Notes::default(),
        sent: false,
    }
}

// The reply of a call: the channel after it, and what it tells or its refusal.
pub fn reply_of(ch: Channel, told: Result<Told, Refusal>) -> Reply
    ensures { result ≡ reply_of ch told }
{
    match told {
        Ok(told) => Reply {
            channel: ch,
            answer: Ok(()),
            notes: told.notes,
            sent: told.sent,
        },
        Err(refusal) => refused(ch, Err(refusal)),
    }
}

// ---- carried out

// Moves the channel by a rule, and tells its notes; ei and er say whether the vectors of EIRA and ERA changed.
#[tactic(auto, unfolding(crate::specs::Moved::moved_by))]
pub fn move_by(ch: &mut Channel, rule: Rule, again: bool, ei: bool, er: bool) -> Told
    ensures moves { reply_of ch.new (Ok result) ≡ moved_by ch.old rule again ei er }
    ensures keeps { (ch.new.own.config ≡ ch.old.own.config) × (ch.new.own.ticks ≡ ch.old.own.ticks) }
{
    let t = ch.own.ticks;
    let before = ch.own.mode;
    let old = ch.own.traffic;
    let after = mode_transitions::mode_by(rule, again, t, before);
    let s = traffic::setup_of(ch.own.config, t);
    let new = traffic_transitions::traffic_by(rule, again, s, before, after, old);
    ch.own.mode = after;
    ch.own.traffic = new;
    let first = notes::first_by(rule, before, after);
    let second = notes::second_by(rule, before, old);
    Told {
        notes: Notes {
            first,
            second,
            eira: ei,
            era: er,
        },
        sent: false,
    }
}

// The channel moved by a rule, with its notes.
pub fn moved(mut ch: Channel, rule: Rule, again: bool, ei: bool, er: bool) -> Reply
    ensures { result ≡ moved_by ch rule again ei er }
{
    let told = move_by(&mut ch, rule, again, ei, er);
    reply_of(ch, Ok(told))
}

// ---- initialising

fn fresh_mode() -> Mode
    ensures { result ≡ fresh_mode }
{
    Mode {
        sending: true,
        ..Mode::default()
    }
}

// The channel of zeros. No `Channel::default()`: the check doesn't relate the default of its arrays to `zero`.
#[tactic(auto, unfolding(crate::specs::Channel::zero))]
fn zero() -> Channel
    ensures { result ≡ zero }
{
    Channel {
        own: Own {
            config: Config::default(),
            ticks: Times::default(),
            mode: Mode::default(),
            traffic: Traffic::default(),
            user: [0; Channel::BYTES],
            requests: [0; Channel::BYTES],
            era: [0; Channel::TIMERS],
        },
        eira: [0; Channel::TIMERS],
    }
}

// ---- the channel

impl Channel {
    // One reset timer for each PNC.
    pub const TIMERS: usize = PNC_MOST;
    // The most bytes of user data or PN requests.
    pub const BYTES: usize = PDU_MOST;
    // User data that was not set.
    pub const UNSET: u8 = 0xFF;

    // The freshly initialised channel of a configuration and its times in ticks.
    #[tactic(auto, unfolding(crate::specs::Channel::fresh))]
    pub fn fresh(c: Config, t: Ticks) -> Channel
        ensures { result ≡ fresh c t }
    {
        Channel {
            own: Own {
                config: c,
                ticks: t,
                mode: fresh_mode(),
                traffic: Traffic::default(),
                user: [Channel::UNSET; Channel::BYTES],
                requests: [0; Channel::BYTES],
                era: [0; Channel::TIMERS],
            },
            eira: [0; Channel::TIMERS],
        }
    }

    // Is its state sound?
    #[tactic(auto, unfolding(crate::specs::Channel::sound))]
    pub fn is_sound(&self) -> bool
        ensures { result ≡ sound self.now }
    {
        soundness::sound(
            self.own.config,
            self.own.ticks,
            self.own.mode,
            self.own.traffic,
            &self.own.era,
            &self.eira,
        )
    }

    // A channel of a configuration, which is refused by the first rule that it breaks.
    #[tactic(auto, unfolding(crate::specs::Channel::initialised))]
    pub fn initialise(c: Config) -> Started
        ensures { result ≡ initialised c }
    {
        match rules::first_broken_rule(c) {
            Ok(()) => Started {
                channel: Channel::fresh(c, time_rules::ticks_for(c)),
                answer: Ok(()),
            },
            Err(rule) => Started {
                channel: zero(),
                answer: Err(Refusal::from(rule)),
            },
        }
    }
}
