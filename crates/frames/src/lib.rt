// What a channel puts into a frame, and the timers that a sent frame loads.
//
// Promises: each function is a definition of specs/; lent bytes are given whole. Leaves to others: where a field stands
// (`layout`), when a frame is sent (`sending`), and what is received (`heard`).
#![tactic(auto)]

ghost use Rattle.std.specs.Prelude.{◌≡◌};
ghost use Rattle.vectors.specs.Vectors.{Changes};
ghost use Rattle.frames.specs.Frames.{cbv_sent, framed, sent_loaded};

use config::{Config, PDU_MOST, PNC_MOST};
use layout::PduFields;
use states::Traffic;

#[tactic(auto, unfolding(crate::specs::Frames::cbv_sent))]
fn cbv_sent(on: bool, x: Traffic) -> u8
    ensures { result ≡ cbv_sent on x }
{
    u8::from(x.repeating) + (u8::from(x.waking) << 4) + (u8::from(on) << 6)
}

// The channel's fields in a lent frame.
#[tactic(auto, unfolding(crate::specs::Frames::framed))]
pub fn send<'a>(
    c: Config,
    x: Traffic,
    requests: &'a [u8; PDU_MOST],
    user: &'a [u8; PDU_MOST],
    frame: &mut [u8],
)
    ensures { frame.new ≡ framed c x requests.now user.now frame.old }
{
    let pn = slices::part(requests, 0, c.pn.length as usize);
    let data = slices::part(user, 0, config::user_length(c) as usize);
    let fields = PduFields {
        sni: (c.node % 256) as u8,
        cbv: cbv_sent(c.pn.on, x),
        pn,
        user: data,
    };
    fields.write(c, frame);
}

// The timers that a sent frame loads, after a tick has counted them down. Answers whether the vector changed by both.
#[tactic(auto, unfolding(crate::specs::Frames::sent_loaded))]
pub fn load_sent(
    c: Config,
    reset: u16,
    requests: &[u8; PDU_MOST],
    timers: &mut [u16; PNC_MOST],
) -> bool
    ensures { Changes timers.old (sent_loaded c reset requests.now timers.old) timers.new result }
{
    let before = *timers;
    timers::count_down(timers);
    timers::load_where(
        slices::part(requests, 0, c.pn.length as usize),
        &c.pn.mask,
        reset,
        timers,
    );
    vectors::vectors_differ(&before, timers)
}
