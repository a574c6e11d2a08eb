// The five states, and the parts of a channel that the transition rules change.
//
// Promises: each function is a definition of specs/. Leaves to others: which rule a call brings (`decision`).
#![tactic(auto)]

ghost use Rattle.std.specs.Prelude.{◌≡◌};
ghost use Rattle.states.specs.State.{state_number, in_network, is_bus_sleep, is_normal, is_prepare, is_repeat, settled, transmits};

// The states, numbered in this order from 0. A channel begins in the first.
#[derive(Clone, Copy, PartialEq, Eq, Default)]
pub enum State {
    #[default]
    BusSleep = 0,
    PrepareBusSleep = 1,
    RepeatMessage = 2,
    NormalOperation = 3,
    ReadySleep = 4,
}

// What decides the state: nothing else of the channel is looked at for it.
#[derive(Clone, Copy, Default)]
pub struct Mode {
    pub state: State,
    pub requested: bool,
    pub sending: bool, // communication is enabled
    pub filter: bool, // the partial-network filter is on
    pub nm: u16, // NM timer
    pub wait: u16, // wait bus-sleep timer
    pub repeat: u16, // repeat message timer
}

// What is sent and watched: message and remote sleep timers, and the bits of the control bit vector.
#[derive(Clone, Copy, Default)]
pub struct Traffic {
    pub message: u16, // message cycle timer
    pub fast: u16, // immediate transmissions left, document 01's fast count
    pub remote: u16, // remote sleep timer
    pub indicated: bool, // remote sleep is indicated
    pub repeating: bool, // repeat message request bit
    pub waking: bool, // active wakeup bit
}

// What the channel tells its host, by the abbreviation that document 01 prints.
#[derive(Clone, Copy)]
pub enum Note {
    NetworkMode, // NM
    NetworkStart, // ST
    PrepareBusSleep, // PB
    BusSleep, // BS
    Timeout, // TO
    RemoteSleepCancelled, // RC
    RemoteSleepIndication, // RI
}

// The number of a state: `channel.specs.Channel.status_of` and `decision.specs.Decision.rule_of` promise it.
pub fn state_number(s: State) -> u8
    ensures { result ≡ state_number s }
{
    s as u8
}

// Is it Network Mode?
pub fn in_network(s: State) -> bool
    ensures { result ≡ in_network s }
{
    matches!(
        s,
        State::RepeatMessage | State::NormalOperation | State::ReadySleep
    )
}

// Does an active channel send in it?
pub fn transmits(s: State) -> bool
    ensures { result ≡ transmits s }
{
    matches!(s, State::RepeatMessage | State::NormalOperation)
}

// Is it Normal Operation or Ready Sleep?
pub fn settled(s: State) -> bool
    ensures { result ≡ settled s }
{
    matches!(s, State::NormalOperation | State::ReadySleep)
}

// The next four are `==` with a state, which the crates here write themselves; they stay since docs/PROMISES.md names them.
pub fn is_bus_sleep(s: State) -> bool
    ensures { result ≡ is_bus_sleep s }
{
    s == State::BusSleep
}

pub fn is_prepare(s: State) -> bool
    ensures { result ≡ is_prepare s }
{
    s == State::PrepareBusSleep
}

pub fn is_repeat(s: State) -> bool
    ensures { result ≡ is_repeat s }
{
    s == State::RepeatMessage
}

pub fn is_normal(s: State) -> bool
    ensures { result ≡ is_normal s }
{
    s == State::NormalOperation
}
