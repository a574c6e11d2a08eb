// Rules 6 and 7 of a configuration: the length of its PDU, and the positions of the header.
//
// Promises: each function is a definition of specs/. Leaves to others: the PDU's byte ranges (`config`), and which of
// all rules is broken first (`rules`).
#![tactic(auto)]

ghost use Rattle.std.specs.Prelude.{◌≡◌};
ghost use Rattle.header_rules.specs.HeaderRules.{behind, first_broken_of_header, placed, rule6, rule7};

use answers::BrokenRule;
use config::Layout;

#[tactic(auto, unfolding(crate::specs::HeaderRules::rule6))]
pub fn length_rule(l: Layout) -> bool
    ensures { result ≡ rule6 l }
{
    config::in_bounds(config::LENGTH, l.length)
}

fn is_placed(position: u64) -> bool
    ensures { result ≡ placed position }
{
    (position == config::OFF) | (position == 0) | (position == 1)
}

fn is_behind(position: u64, other: u64) -> bool
    ensures { result ≡ behind position other }
{
    (position != 1) | (other == 0)
}

#[tactic(auto, unfolding(crate::specs::HeaderRules::rule7))]
pub fn header_rule(l: Layout) -> bool
    ensures { result ≡ rule7 l }
{
    is_placed(l.sni)
        & is_placed(l.cbv)
        & ((l.sni == config::OFF) | (l.sni != l.cbv))
        & is_behind(l.sni, l.cbv)
        & is_behind(l.cbv, l.sni)
        & (config::header_length(l) <= l.length)
}

// The first broken rule of the header alone: of its length, or of its positions.
#[tactic(auto, unfolding(crate::specs::HeaderRules::first_broken_of_header))]
pub fn first_broken_of_header(l: Layout) -> Result<(), BrokenRule>
    ensures { result ≡ first_broken_of_header l }
{
    BrokenRule::PduLength.unless(length_rule(l))?;
    BrokenRule::Header.unless(header_rule(l))
}
