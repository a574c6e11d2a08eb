// The channel's value and what its calls give.
ghost use Rattle.std.specs.Prelude.{◌≡◌};
ghost use Rattle.channel.specs.Told.{told_of};

use answers::{Answer, Refusal};
use config::{Config, PDU_MOST, PN_MOST, PNC_MOST, Ticks};
use states::{Mode, Note, Traffic};

// A channel without EIRA, whose timers are the only part that no rule of the channel reads. Configuration and ticks stay two
// values: a host hands over the one, and `rules::first_broken_by` judges it with any ticks.
#[derive(Clone, Copy)]
pub struct Own {
    pub config: Config,
    pub ticks: Ticks, // what the configuration's times come to
    pub mode: Mode,
    pub traffic: Traffic,
    pub user: [u8; PDU_MOST],
    pub requests: [u8; PDU_MOST], // PN requests
    pub era: [u16; PNC_MOST], // reset timers of the external requests
}

#[derive(Clone, Copy)]
pub struct Channel {
    pub own: Own,
    pub eira: [u16; PNC_MOST], // reset timers of the external and internal requests
}

// The notes of a call in the order raised: a call raises at most two, then EI and ER close it.
#[derive(Clone, Copy, Default)]
pub struct Notes {
    pub first: Option<Note>,
    pub second: Option<Note>,
    pub eira: bool, // EI
    pub era: bool, // ER
}

// What a call gives: the channel after it, the answer, the notes, and whether a frame was sent. Not a `Result`: a refusal
// gives back the same channel (`refused`, specs/Channel).
#[derive(Clone, Copy)]
pub struct Reply {
    pub channel: Channel,
    pub answer: Answer,
    pub notes: Notes,
    pub sent: bool,
}

// What a call that is carried out tells, besides the channel that it leaves.
#[derive(Clone, Copy, Default)]
pub struct Told {
    pub notes: Notes,
    pub sent: bool,
}

impl Reply {
    // What the call told, or its refusal.
    pub fn told(self) -> Result<Told, Refusal>
        ensures { result ≡ told_of self }
    {
        self.answer?;
        Ok(Told {
            notes: self.notes,
            sent: self.sent,
        })
    }
}

// What initialising gives: the channel and the answer. Not a `Result`: where a configuration is refused, a channel of zeros
// stands beside the answer (`initialised`, specs/Channel).
#[derive(Clone, Copy)]
pub struct Started {
    pub channel: Channel,
    pub answer: Answer,
}

// What status gives: the state's number, both vectors, how many PNCs EIRA has and the lowest of them. Not a `Result`:
// refused, its values are 0 beside the answer (`unshown`, specs/Channel).
#[derive(Clone, Copy)]
pub struct Status {
    pub answer: Answer,
    pub state: u8,
    pub era: [u8; PN_MOST],
    pub eira: [u8; PN_MOST],
    pub count: u32,
    pub lowest: u32,
}
