// A PNC's number, and its place in the vector: two kinds of thing, with one conversion each way.
//
// Promises: each conversion is a definition of specs/, for any number and any PN range; the two undo each other
// (proofs/Inverse). Leaves to others: the bytes of the vector (`timers`), and which bits of it are set (`channel`).
#![tactic(auto)]

ghost use Rattle.std.specs.Prelude.{◌≡◌};
ghost use Rattle.pnc.specs.Pnc.{bit_in, number_in, number_or_zero, range_of};

use config::Config;

// The number of a partial network cluster.
#[derive(Clone, Copy)]
pub struct PncNumber(pub u32);

// The place of a bit in the vector, from bit 0 of the vector's first byte on.
#[derive(Clone, Copy)]
pub struct VectorBit(pub u32);

// The PN range of the PDU: `length` bytes from byte `start` on.
#[derive(Clone, Copy)]
pub struct PnRange {
    pub start: u16,
    pub length: u16,
}

// The PN range of a configuration. Not a `From`: the name says which part of it.
#[tactic(auto, unfolding(crate::specs::Pnc::range_of))]
pub fn range_of(c: Config) -> PnRange
    ensures { result ≡ range_of c }
{
    PnRange {
        start: choice::narrow16(c.pn.start),
        length: choice::narrow16(c.pn.length),
    }
}

// The PNC number of a bit, 0 where the vector has no such bit. No `Option`: by `channel.specs.Channel.status_of`
// a status has a number, 0 for none.
pub fn number_or_zero(b: VectorBit, range: PnRange) -> u32
    ensures { result ≡ number_or_zero (number_in range b) }
{
    b.number(range).map_or(0, |number| number.0)
}

impl VectorBit {
    // The PNC number of a bit, if the vector has such a bit.
    #[tactic(auto, unfolding(crate::specs::Pnc::number_in))]
    pub fn number(self, range: PnRange) -> Option<PncNumber>
        ensures { result ≡ number_in range self }
    {
        let b = self.0;
        let start = range.start as u32;
        let length = range.length as u32;
        if b < 8 * length {
            Some(PncNumber(8 * (start + b / 8) + b % 8))
        } else {
            None
        }
    }
}

impl PncNumber {
    // The bit of a PNC, if it lies in the range.
    #[tactic(auto, unfolding(crate::specs::Pnc::bit_in))]
    pub fn bit(self, range: PnRange) -> Option<VectorBit>
        ensures { result ≡ bit_in range self }
    {
        let p = self.0;
        let start = range.start as u32;
        let length = range.length as u32;
        if (8 * start..8 * (start + length)).contains(&p) {
            Some(VectorBit(p - 8 * start))
        } else {
            None
        }
    }
}
