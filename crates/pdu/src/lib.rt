// The NM PDU: composing it from its fields and reading them back.
//
// Promises: every answer and every lent byte, refusals included, for any configuration and any bytes; composing and
// reading undo each other (proofs/RoundTrip). Leaves to others: where the fields stand (`layout`), what the PN bytes say
// (`filter`, `pnc`), which values a channel sends and what it does with those it hears (`channel`).
#![tactic(auto)]

ghost use Rattle.std.specs.Prelude.{◌≡◌, []};
ghost use Rattle.layout.specs.Fields.{lent};
ghost use Rattle.pdu.specs.Pdu.{composed, composing, header_of, header_reading, reading, taken_by};

use answers::{Answer, Refusal};
use config::{Config, Layout};
use layout::PduFields;

// ---- composing

// A PDU composed from its fields, in the first bytes of the frame.
#[tactic(auto, unfolding(crate::specs::Pdu::composing))]
pub fn compose(c: Config, fields: PduFields, frame: &mut [u8]) -> Answer
    ensures { composed result frame.new ≡ composing c (lent fields.entry) frame.old }
{
    rules::first_broken_rule(c)?;
    let fits = layout::of_lengths(c, fields.pn.len(), fields.user.len())
        & (c.layout.length <= frame.len() as u64);
    if !fits {
        return Err(Refusal::Length);
    }
    fields.write(c, frame);
    Ok(())
}

// ---- reading

// The header fields of a PDU; one that is off reads 0.
#[derive(Clone, Copy, PartialEq, Eq, Default)]
pub struct Header {
    pub sni: u8,
    pub cbv: u8,
}

// Those of a PDU in its layout.
fn header_of(l: Layout, pdu: &[u8]) -> Header
    ensures { result ≡ header_of l pdu.now }
{
    Header {
        sni: layout::byte_at(pdu, l.sni),
        cbv: layout::byte_at(pdu, l.cbv),
    }
}

// The fields of a PDU: PN bytes and user data go into lent bytes.
#[tactic(auto, using(crate::proofs::Parts::fields_laid), unfolding(crate::specs::Pdu::reading))]
pub fn read(c: Config, pdu: &[u8], pn: &mut [u8], user: &mut [u8]) -> Result<Header, Refusal>
    ensures { taken_by result pn.new user.new ≡ reading c pdu.now pn.old user.old }
{
    rules::first_broken_rule(c)?;
    let fits = layout::of_lengths(c, pn.len(), user.len()) & (pdu.len() as u64 == c.layout.length);
    if !fits {
        return Err(Refusal::Length);
    }
    slices::take_part(pdu, c.pn.start as usize, pn);
    slices::take_part(pdu, config::user_start(c) as usize, user);
    Ok(header_of(c.layout, pdu))
}

// The header fields alone, of a PDU whose length and positions are given.
#[tactic(auto, unfolding(crate::specs::Pdu::header_reading))]
pub fn read_header(l: Layout, pdu: &[u8]) -> Result<Header, Refusal>
    ensures { taken_by result [] [] ≡ header_reading l pdu.now }
{
    header_rules::first_broken_of_header(l)?;
    if pdu.len() as u64 != l.length {
        return Err(Refusal::Length);
    }
    Ok(header_of(l, pdu))
}
