// The status of a channel: its state, both vectors, and the requested PNCs.
//
// Promises: what channel's definition `status_of` shows, of every channel handed in, refusals included. Leaves to others:
// all calls that change a channel (`calls`, `reception`, `inputs`, `tick`).
#![tactic(auto)]

ghost use Rattle.std.specs.Prelude.{◌≡◌};
ghost use Rattle.bits.specs.Bits.{lowest_in};
ghost use Rattle.channel.specs.Channel.{lowest_pnc, status_of, unshown, vector_of};

use answers::Answer;
use channel::state::{Channel, Status};
use config::{Config, PN_MOST, PNC_MOST};
use pnc::VectorBit;
use refusals::Tests;

fn vector_of(t: &[u16; PNC_MOST]) -> [u8; PN_MOST]
    ensures { result ≡ vector_of t.now }
{
    let mut vector = [0; PN_MOST];
    for (i, byte) in vector.iter_mut().enumerate() {
        *byte = vectors::vector_byte(t, 8 * i);
    }
    vector
}

fn lowest_of(c: Config, v: &[u8; PN_MOST]) -> u32
    ensures { result ≡ lowest_pnc c (lowest_in v.now) }
{
    let range = pnc::range_of(c);
    bits::lowest_one(v).map_or(0, |b| pnc::number_or_zero(VectorBit(b), range))
}

#[tactic(auto, unfolding(channel::specs::Channel::unshown))]
fn unshown(a: Answer) -> Status
    ensures { result ≡ unshown a }
{
    Status {
        answer: a,
        state: 0,
        era: [0; PN_MOST],
        eira: [0; PN_MOST],
        count: 0,
        lowest: 0,
    }
}

// The state, both vectors, and what EIRA says of the PNCs.
pub fn status(ch: Channel) -> Status
    ensures { result ≡ status_of ch }
{
    let c = ch.own.config;
    let state = ch.own.mode.state;
    let sound = ch.is_sound();
    let elsewhere = decision::is_not_here(decision::rule_of(state, decision::STATUS));
    let a = refusals::judge(Tests {
        sound,
        passive: false,
        off: false,
        elsewhere,
        size: false,
    });
    if a.is_ok() {
        let era = vector_of(&ch.own.era);
        let eira = vector_of(&ch.eira);
        let count = bits::count_ones(&eira);
        let lowest = lowest_of(c, &eira);
        return Status {
            answer: Ok(()),
            state: states::state_number(state),
            era,
            eira,
            count,
            lowest,
        };
    }
    unshown(a)
}
