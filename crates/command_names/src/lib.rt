// The calls that a line of a trace can ask for, by the name in front, with the argument or without.
//
// Promises: the call of every name, or that there is none, for any bytes. Leaves to others: cutting a line into name
// and argument (`commands`), and which name it is (`names`).
#![tactic(auto)]

ghost use Rattle.std.specs.Prelude.{◌≡◌};
ghost use Rattle.command_names.specs.CommandNames.{alone, tick_of, with_bytes};

use names::Name;

// A call with its argument; bytes stand in front of a lent buffer, so many of them. A count and no slice: a slice would keep the
// buffer lent for as long as the command lives, while `reading` speaks of the buffer itself.
#[derive(Clone, Copy)]
pub enum Command {
    NetworkRequest,
    NetworkRelease,
    PassiveStartUp,
    RepeatMessageRequest,
    DisableCommunication,
    EnableCommunication,
    TxConfirmation(bool),
    RxIndication(usize),
    ConfirmPnAvailability,
    SetUserData(usize),
    SetPnRequests(usize),
    MainFunction(bool),
}

// The call of a name that stands alone.
pub fn alone(name: Option<Name>) -> Option<Command>
    ensures { result ≡ alone name }
{
    match name {
        Some(Name::Req) => Some(Command::NetworkRequest),
        Some(Name::Rel) => Some(Command::NetworkRelease),
        Some(Name::Pas) => Some(Command::PassiveStartUp),
        Some(Name::Rmr) => Some(Command::RepeatMessageRequest),
        Some(Name::Dis) => Some(Command::DisableCommunication),
        Some(Name::Ena) => Some(Command::EnableCommunication),
        Some(Name::Ok) => Some(Command::TxConfirmation(true)),
        Some(Name::Bad) => Some(Command::TxConfirmation(false)),
        Some(Name::Pna) => Some(Command::ConfirmPnAvailability),
        Some(Name::Rx | Name::Ud | Name::Pnr | Name::T | Name::Cfg | Name::Pn) | None => None,
    }
}

// A tick by its argument: does the driver take a frame?
pub fn tick_of(a: &[u8]) -> Option<Command>
    ensures { result ≡ tick_of a.now }
{
    match a {
        b"0" => Some(Command::MainFunction(false)),
        b"1" => Some(Command::MainFunction(true)),
        _ => None,
    }
}

// A call with so many bytes: at least one.
pub fn with_bytes(name: Option<Name>, n: usize) -> Option<Command>
    ensures { result ≡ with_bytes name n }
{
    if n == 0 {
        return None;
    }
    match name {
        Some(Name::Rx) => Some(Command::RxIndication(n)),
        Some(Name::Ud) => Some(Command::SetUserData(n)),
        Some(Name::Pnr) => Some(Command::SetPnRequests(n)),
        _ => None,
    }
}
