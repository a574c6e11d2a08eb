// What a call is refused with: the rows of the table in their order.
//
// Promises: each function is a definition of specs/. Leaves to others: what each row tests (`soundness`, `decision`).
#![tactic(auto)]

ghost use Rattle.std.specs.Prelude.{◌≡◌};
ghost use Rattle.refusals.specs.Refusals.{first_of, judged};

use answers::{Answer, Refusal};

// What the rows of the table test of a call: one that is no row of the call is false.
#[derive(Clone, Copy)]
pub struct Tests {
    pub sound: bool, // the state that was handed in
    pub passive: bool, // not for a passive channel
    pub off: bool, // for a channel with PN on
    pub elsewhere: bool, // not for the state
    pub size: bool, // bytes of a wrong length
}

// The answer by the rows of the table, in their order.
pub fn judge(tests: Tests) -> Answer
    ensures { result ≡ judged tests.sound (first_of tests.passive tests.off tests.elsewhere tests.size) }
{
    if !tests.sound {
        return Err(Refusal::Unsound);
    }
    if tests.passive {
        return Err(Refusal::Passive);
    }
    if tests.off {
        return Err(Refusal::PnOff);
    }
    if tests.elsewhere {
        return Err(Refusal::State);
    }
    if tests.size {
        return Err(Refusal::Length);
    }
    Ok(())
}
