// The names of a trace's lines.
//
// Promises: the name that any bytes spell, or that they spell none; a name that is found is that one (proofs/Packing).
// Leaves to others: what a line of that name asks (`commands`, `config_line`, `pn_line`).
//
// The bytes are packed into one number, so that one switch tells all names apart: of a match on the bytes themselves 39 goals
// stayed open, one for each name and 24 for the ways to none.
#![tactic(auto)]

ghost use Rattle.std.specs.Prelude.{◌≡◌, ◌==◌, ◌+◌, ◌*◌};
ghost use Rattle.names.specs.Names.{call_of, name_at, packed};

// The names, in the order of their numbers (`number_of`, specs/Names).
#[derive(Clone, Copy, PartialEq, Eq)]
pub enum Name {
    Req,
    Rel,
    Pas,
    Rmr,
    Dis,
    Ena,
    Ok,
    Bad,
    Pna,
    Rx,
    Ud,
    Pnr,
    T,
    Cfg,
    Pn,
}

// A name as one number: a 1 and its bytes; 0 where it has none or more than three.
fn pack(f: &[u8]) -> u32
    ensures { result ≡ packed f.now }
{
    match f {
        [a] => 256 + u32::from(*a),
        [a, b] => (256 + u32::from(*a)) * 256 + u32::from(*b),
        [a, b, c] => ((256 + u32::from(*a)) * 256 + u32::from(*b)) * 256 + u32::from(*c),
        _ => 0,
    }
}

// The name that some bytes spell.
pub fn call(f: &[u8]) -> Option<Name>
    ensures { result ≡ name_at (call_of f.now) }
{
    match pack(f) {
        0x01524551 => Some(Name::Req),
        0x0152454C => Some(Name::Rel),
        0x01504153 => Some(Name::Pas),
        0x01524D52 => Some(Name::Rmr),
        0x01444953 => Some(Name::Dis),
        0x01454E41 => Some(Name::Ena),
        0x014F4B => Some(Name::Ok),
        0x01424144 => Some(Name::Bad),
        0x01504E41 => Some(Name::Pna),
        0x015258 => Some(Name::Rx),
        0x015544 => Some(Name::Ud),
        0x01504E52 => Some(Name::Pnr),
        0x0154 => Some(Name::T),
        0x01434647 => Some(Name::Cfg),
        0x01504E => Some(Name::Pn),
        _ => None,
    }
}
