// Step f of a tick: whether a frame is due, and the message timer and the fast count after it.
//
// Promises: each function is a definition of specs/. Leaves to others: the other steps (`mode_transitions`), and the
// bytes of the frame (`frames`).
#![tactic(auto)]

ghost use Rattle.std.specs.Prelude.{◌≡◌};
ghost use Rattle.sending.specs.Sending.{counts, framing, is_due};

use states::{Mode, Traffic};
use traffic::Setup;

// Does the message timer count?
#[tactic(auto, unfolding(crate::specs::Sending::counts))]
fn counts(s: Setup, after: Mode) -> bool
    ensures { result ≡ counts s after }
{
    states::transmits(after.state) & !s.passive & after.sending
}

// Is a frame due?
#[tactic(auto, unfolding(crate::specs::Sending::is_due))]
pub fn is_due(s: Setup, after: Mode, x: Traffic) -> bool
    ensures { result ≡ is_due s after x }
{
    counts(s, after) & (x.message <= 1)
}

// The message timer and the fast count, with the driver's word.
#[tactic(auto, unfolding(crate::specs::Sending::framing))]
pub fn framing(s: Setup, after: Mode, taken: bool, x: Traffic) -> Traffic
    ensures { result ≡ framing s after taken x }
{
    if !counts(s, after) {
        x
    } else if 1 < x.message {
        Traffic {
            message: ticks::down(x.message),
            ..x
        }
    } else if taken {
        Traffic {
            message: choice::pick(1 < x.fast, s.ticks.fast, s.ticks.cycle),
            fast: ticks::down(x.fast),
            ..x
        }
    } else {
        Traffic {
            message: choice::pick(0 < x.fast, 1, s.ticks.cycle),
            ..x
        }
    }
}
