// What a channel takes from a PDU that it received.
//
// Promises: each function is a definition of specs/. Leaves to others: where a field stands (`layout`), which PN bytes
// keep a PDU (`filter`), and what follows from it (`reception`).
#![tactic(auto)]

ghost use Rattle.std.specs.Prelude.{◌≡◌};
ghost use Rattle.vectors.specs.Vectors.{Changes};
ghost use Rattle.heard.specs.Heard.{accepted, asks_repeat, loaded_by};

use config::{Config, PNC_MOST};

// Is it accepted, with the filter on or off?
#[tactic(auto, unfolding(crate::specs::Heard::accepted))]
pub fn accepted(c: Config, filter: bool, pdu: &[u8]) -> bool
    ensures { result ≡ accepted c filter pdu.now }
{
    let pn = slices::part(pdu, c.pn.start as usize, c.pn.length as usize);
    let cbv = layout::byte_at(pdu, c.layout.cbv);
    !filter | filter::keeps(c.pn.awake, cbv as u32, pn, &c.pn.mask)
}

// Does it ask for Repeat Message?
#[tactic(auto, unfolding(crate::specs::Heard::asks_repeat))]
pub fn asks_repeat(c: Config, pdu: &[u8]) -> bool
    ensures { result ≡ asks_repeat c pdu.now }
{
    bits::bit_of(layout::byte_at(pdu, c.layout.cbv), 0)
}

// Its PN bits load a table. Answers whether the vector changed by it.
pub fn load_heard(c: Config, reset: u16, pdu: &[u8], timers: &mut [u16; PNC_MOST]) -> bool
    ensures { Changes timers.old (loaded_by c reset pdu.now timers.old) timers.new result }
{
    if filter::informs(layout::byte_at(pdu, c.layout.cbv) as u32) {
        let pn = slices::part(pdu, c.pn.start as usize, c.pn.length as usize);
        return timers::load_where(pn, &c.pn.mask, reset, timers);
    }
    false
}
