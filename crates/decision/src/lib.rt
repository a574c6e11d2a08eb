// The calls by their numbers, and which transition rule a call brings in a state: one decision over both.
//
// Promises: each function is a definition of specs/. Leaves to others: the states (`states`), what a rule does
// (`mode_transitions`), and what a call is refused with (`refusals`).
#![tactic(auto)]

ghost use Rattle.std.specs.Prelude.{◌≡◌, cond};
ghost use Rattle.decision.specs.declared.Rule.TheVariants.{Keep};
ghost use Rattle.decision.specs.Decision.{is_not_here, rule_at, rule_of};

use states::State;

// The calls by their number. No enum: the decision is one over the numbers of state and call, each case naming one rule, by
// `decision.specs.Decision.rule_of`.
pub const NETWORK_REQUEST: u8 = 0;

pub const NETWORK_RELEASE: u8 = 1;

pub const PASSIVE_START_UP: u8 = 2;

pub const REPEAT_MESSAGE_REQUEST: u8 = 3;

pub const DISABLE_COMMUNICATION: u8 = 4;

pub const ENABLE_COMMUNICATION: u8 = 5;

pub const TX_CONFIRMATION: u8 = 6;

pub const RX_INDICATION: u8 = 7;

pub const CONFIRM_PN_AVAILABILITY: u8 = 8;

pub const SET_USER_DATA: u8 = 9;

pub const SET_PN_REQUESTS: u8 = 10;

pub const STATUS: u8 = 11;

pub const MAIN_FUNCTION: u8 = 12;

// The transition rules.
#[derive(Clone, Copy, PartialEq, Eq)]
pub enum Rule {
    // The state and its timers stay.
    Keep,
    // The call is not for this state.
    NotHere,
    // Network Mode is entered.
    WakeUp,
    // The same by a request.
    ActiveWakeUp,
    // Requested, no more.
    Request,
    // Requested, from Ready Sleep to Normal Operation.
    ToNormal,
    // Released, no more.
    Release,
    // Released, from Normal Operation to Ready Sleep.
    ToReady,
    // Repeat Message is entered.
    Repeat,
    Disable,
    Enable,
    Confirm,
    // A PDU: in Bus-Sleep only told, in Network Mode heard.
    Start,
    HeardInRepeat,
    HeardInNormal,
    HeardInReady,
    FilterOn,
    // A tick that begins in Prepare Bus-Sleep, in Repeat Message, in Normal Operation, in Ready Sleep.
    TickInPrepare,
    TickInRepeat,
    TickInNormal,
    TickInReady,
}

// The rule of state and call: five keys for each call, one for each state.
#[tactic(auto, unfolding(crate::specs::Decision::rule_at, crate::specs::Decision::table))]
pub fn rule_at(key: u8) -> Rule
    ensures { result ≡ rule_at key }
{
    match key {
        // network request
        0..=1 => Rule::ActiveWakeUp,
        2..=3 => Rule::Request,
        4 => Rule::ToNormal,
        // network release
        5..=7 => Rule::Release,
        8 => Rule::ToReady,
        9 => Rule::Release,
        // passive start-up
        10..=11 => Rule::WakeUp,
        12..=14 => Rule::NotHere,
        // repeat message request
        15..=17 => Rule::NotHere,
        18..=19 => Rule::Repeat,
        // disable communication
        20..=21 => Rule::NotHere,
        22..=24 => Rule::Disable,
        // enable communication
        25..=26 => Rule::NotHere,
        27..=29 => Rule::Enable,
        // transmission confirmed
        30..=31 => Rule::Keep,
        32..=34 => Rule::Confirm,
        // PDU received
        35 => Rule::Start,
        36 => Rule::WakeUp,
        37 => Rule::HeardInRepeat,
        38 => Rule::HeardInNormal,
        39 => Rule::HeardInReady,
        // confirm PN availability
        40..=44 => Rule::FilterOn,
        // set user data
        45..=49 => Rule::Keep,
        // set PN requests
        50..=54 => Rule::Keep,
        // status
        55..=59 => Rule::Keep,
        // main function
        60 => Rule::Keep,
        61 => Rule::TickInPrepare,
        62 => Rule::TickInRepeat,
        63 => Rule::TickInNormal,
        64 => Rule::TickInReady,
        // no call has a larger number
        65..=255 => Rule::Keep,
    }
}

// Is the call not for the state?
pub fn is_not_here(rule: Rule) -> bool
    ensures { result ≡ is_not_here rule }
{
    rule == Rule::NotHere
}

// The rule of a call in a state.
pub fn rule_of(s: State, call: u8) -> Rule
    ensures { result ≡ rule_of s call }
{
    if call <= MAIN_FUNCTION {
        rule_at(5 * call + states::state_number(s))
    } else {
        Rule::Keep
    }
}

// The rule, or none where the call is not heeded.
pub fn heed(heeded: bool, rule: Rule) -> Rule
    ensures { result ≡ cond heeded rule Keep }
{
    if heeded { rule } else { Rule::Keep }
}
