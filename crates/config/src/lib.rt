// The configuration of a channel: its fields, the table of their bounds, and the byte ranges of the PDU that follow from it.
//
// Promises: whether a value lies within its bounds, and where header and user data stand, for every configuration whatever
// its numbers. Leaves to others: the eight rules (`rules`), what the bytes mean (`layout`) and what the times do (`channel`).
#![tactic(auto)]

ghost use Rattle.std.specs.Prelude.{◌≡◌, ◌-◌};
ghost use Rattle.config.specs.Bounds.{within};
ghost use Rattle.config.specs.Ranges.{bytes_of, header_length, user_start_of, user_length_of};
ghost use Rattle.config.specs.Times.{MapsTo, each};

// ---- sizes

// The most bytes of an NM PDU.
pub const PDU_MOST: usize = 8;

// The most bytes of a PN range, since the control bit vector takes one.
pub const PN_MOST: usize = 7;

// The most PNCs: one for each bit of a PN range.
pub const PNC_MOST: usize = 8 * PN_MOST;

// ---- the fields

// The times of a channel (AUTOSAR's parameter, and its letter in README, "Configuration").
#[derive(Clone, Copy, Default)]
pub struct Times<T> {
    pub timeout: T, // CanNmTimeoutTime, T
    pub wait: T, // CanNmWaitBusSleepTime, W
    pub repeat: T, // CanNmRepeatMessageTime, R
    pub cycle: T, // CanNmMsgCycleTime, C
    pub offset: T, // CanNmMsgCycleOffset, O
    pub fast: T, // CanNmImmediateNmCycleTime, IC
    pub remote: T, // CanNmRemoteSleepIndTime, RS
    pub reset: T, // CanNmPnResetTime, P
}

impl<T: Copy> Times<T> {
    // The times in the order of their rows in the table of bounds, from `TIMEOUT` on.
    pub fn each(self) -> [T; 8]
        ensures { result ≡ each self }
    {
        [
            self.timeout,
            self.wait,
            self.repeat,
            self.cycle,
            self.offset,
            self.fast,
            self.remote,
            self.reset,
        ]
    }

    // The times that a function makes of these.
    pub fn map<U, F: Fn(T) -> U>(self, f: F) -> Times<U>
        requires { F.IsAlwaysCallable f }
        ensures { MapsTo (F.post f) self result }
    {
        Times {
            timeout: f(self.timeout),
            wait: f(self.wait),
            repeat: f(self.repeat),
            cycle: f(self.cycle),
            offset: f(self.offset),
            fast: f(self.fast),
            remote: f(self.remote),
            reset: f(self.reset),
        }
    }
}

// The times as they are configured.
pub type Milliseconds = Times<u64>;

// The same times in ticks of the main function.
pub type Ticks = Times<u16>;

// The header of the PDU: its length L and the bytes of the source node id and of the control bit vector.
#[derive(Clone, Copy, Default)]
pub struct Layout {
    pub length: u64,
    pub sni: u64,
    pub cbv: u64,
}

// The position of a header field that is off. No `Option`: any number of a host, from C too, has to reach rule 7, which
// `rules::first_broken_rule` judges, and 255 is the documented value of these public fields.
pub const OFF: u64 = 255;

// Partial networking: the PN range of `length` bytes (N) from byte `start` (F) on, and the filter mask with the
// number of bytes that it was given. No `Option` of the rest, since `pn_rules::pn_rule` judges it where it is off, too; and no
// slice for the mask: memory is fixed, and any number of bytes has to reach that rule.
#[derive(Clone, Copy, Default)]
pub struct Partial {
    pub on: bool,
    pub start: u64,
    pub length: u64,
    pub awake: bool, // CanNmAllNmMessagesKeepAwake
    pub masked: u64,
    pub mask: [u8; PDU_MOST],
}

#[derive(Clone, Copy, Default)]
pub struct Config {
    pub period: u64, // CanNmMainFunctionPeriod, M
    pub times: Milliseconds,
    pub immediate: u64, // CanNmImmediateNmTransmissions, IN: document 01's fast count starts here
    pub node: u64, // CanNmNodeId
    pub passive: bool, // CanNmPassiveModeEnabled
    pub layout: Layout,
    pub pn: Partial,
}

// ---- the bounds

// The smallest and the largest value of a field.
#[derive(Clone, Copy)]
pub struct Bounds(pub u64, pub u64);

// The fields by their row in the table of bounds. No enum: `in_bounds` answers for every number.
pub const PERIOD: usize = 0;

pub const TIMEOUT: usize = 1;

pub const WAIT: usize = 2;

pub const REPEAT: usize = 3;

pub const CYCLE: usize = 4;

pub const OFFSET: usize = 5;

pub const FAST: usize = 6;

pub const REMOTE: usize = 7;

pub const RESET: usize = 8;

pub const IMMEDIATE: usize = 9;

pub const NODE: usize = 10;

pub const LENGTH: usize = 11;

pub const BOUNDS: [Bounds; 12] = [
    Bounds(ticks::PERIOD_LEAST, ticks::PERIOD_MOST),
    Bounds(1, ticks::TIME_MOST),
    Bounds(1, ticks::TIME_MOST),
    Bounds(1, ticks::TIME_MOST),
    Bounds(1, ticks::TIME_MOST),
    Bounds(0, ticks::TIME_MOST),
    Bounds(0, ticks::TIME_MOST),
    Bounds(0, ticks::TIME_MOST),
    Bounds(0, ticks::TIME_MOST),
    Bounds(0, 255),
    Bounds(0, 255),
    Bounds(1, PDU_MOST as u64),
];

// Does a value stand within the bounds of its field? No value does where there is no such field.
#[tactic(auto, unfolding(crate::specs::Bounds::within))]
pub fn in_bounds(field: usize, value: u64) -> bool
    ensures { result ≡ within field value }
{
    BOUNDS
        .get(field)
        .is_some_and(|b| (b.0..=b.1).contains(&value))
}

// ---- byte ranges of the PDU

// The bytes that a header field takes.
fn bytes_of(position: u64) -> u64
    ensures { result ≡ bytes_of position }
{
    u64::from(position != OFF)
}

// The length of the header, H.
#[tactic(auto, using(crate::proofs::Ranges::bytes_small), unfolding(crate::specs::Ranges::header_length))]
pub fn header_length(l: Layout) -> u64
    ensures { result ≡ header_length l }
{
    bytes_of(l.sni) + bytes_of(l.cbv)
}

// The number of user bytes.
#[tactic(auto, unfolding(crate::specs::Ranges::user_length_of, crate::specs::Ranges::user_length))]
pub fn user_length(c: Config) -> u64
    ensures { result ≡ user_length_of c }
{
    c.layout
        .length
        .saturating_sub(header_length(c.layout))
        .saturating_sub(c.pn.length)
}

// The first user byte.
#[tactic(auto, unfolding(crate::specs::Ranges::user_start_of, crate::specs::Ranges::user_start, crate::specs::Ranges::user_length_of))]
pub fn user_start(c: Config) -> u64
    ensures { result ≡ user_start_of c }
{
    let h = header_length(c.layout);
    if c.pn.start == h {
        c.layout.length.saturating_sub(user_length(c))
    } else {
        h
    }
}
