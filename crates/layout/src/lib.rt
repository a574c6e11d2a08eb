// The fields of an NM PDU in their bytes: source node id and control bit vector where the configuration has them, PN bytes
// and user data in their ranges.
//
// Promises: for any configuration, fields and frame, every byte of the frame after writing, and what a header field
// reads as. Leaves to others: whether the configuration passes and the lengths fit, which composing and reading judge
// (`pdu`), and which values a channel sends and hears (`frames`).
#![tactic(auto)]

ghost use Rattle.std.specs.Prelude.{◌≡◌};
ghost use Rattle.layout.specs.Fields.{lent};
ghost use Rattle.layout.specs.Layout.{byte_at, frame_of, of_lengths, put_byte};

use config::Config;

// ---- header fields

// A header field in its byte; none where it is off.
fn put_byte(frame: &mut [u8], position: u64, b: u8)
    ensures { frame.new ≡ put_byte position b frame.old }
{
    if position == config::OFF {
        return;
    }
    slices::put(frame, position as usize, b);
}

// A header field's byte; 0 where it is off.
pub fn byte_at(pdu: &[u8], position: u64) -> u8
    ensures { result ≡ byte_at position pdu.now }
{
    if position == config::OFF {
        return 0;
    }
    pdu.get(position as usize).copied().unwrap_or(0)
}

// ---- all fields

// The fields of a PDU: source node id, control bit vector, and the lent PN bytes and user data.
#[derive(Clone, Copy)]
pub struct PduFields<'a> {
    pub sni: u8,
    pub cbv: u8,
    pub pn: &'a [u8],
    pub user: &'a [u8],
}

impl PduFields<'_> {
    // The fields in a frame: header fields in their bytes, PN bytes and user data in their ranges.
    #[tactic(auto, unfolding(crate::specs::Layout::frame_of))]
    pub fn write(self, c: Config, frame: &mut [u8])
        ensures { frame.new ≡ frame_of c (lent self.entry) frame.old }
    {
        put_byte(frame, c.layout.sni, self.sni);
        put_byte(frame, c.layout.cbv, self.cbv);
        slices::put_part(frame, c.pn.start as usize, self.pn);
        slices::put_part(frame, config::user_start(c) as usize, self.user);
    }
}

// Are so many PN bytes and user bytes of the configured lengths?
#[tactic(auto, unfolding(crate::specs::Layout::of_lengths))]
pub fn of_lengths(c: Config, pn: usize, user: usize) -> bool
    ensures { result ≡ of_lengths c pn user }
{
    (pn as u64 == c.pn.length) & (user as u64 == config::user_length(c))
}
