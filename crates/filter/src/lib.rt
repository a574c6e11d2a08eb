// The partial-network filter: whether a PDU with this control bit vector and these PN bytes is kept.
//
// Promises: each function is a definition of specs/, for any bytes and any mask; PN bytes and a mask of unequal lengths
// are refused. Leaves to others: whether the filter is on, and where a PDU has these bytes (`heard`).
#![tactic(auto)]

ghost use Rattle.std.specs.Prelude.{◌≡◌};
ghost use Rattle.filter.specs.Filter.{informs, keeps, verdict_answer, verdict_of, verdict_value};

use answers::{Answer, Refusal};

// Is the partial network information bit set?
pub fn informs(cbv: u32) -> bool
    ensures { result ≡ informs cbv }
{
    (cbv >> 6) % 2 == 1
}

// Is a PDU kept by the filter?
#[tactic(auto, unfolding(crate::specs::Filter::keeps))]
pub fn keeps(awake: bool, cbv: u32, pn: &[u8], mask: &[u8]) -> bool
    ensures { result ≡ keeps awake cbv pn.now mask.now }
{
    awake | (informs(cbv) & bits::some_masked(pn, mask))
}

// The filter's decision on a PDU with this control bit vector and these PN bytes: whether it is kept.
#[tactic(auto, unfolding(crate::specs::Filter::verdict_of))]
pub fn decide(awake: bool, cbv: u32, pn: &[u8], mask: &[u8]) -> Result<bool, Refusal>
    ensures { result ≡ verdict_of awake cbv pn.now mask.now }
{
    if pn.len() != mask.len() {
        return Err(Refusal::Length);
    }
    Ok(keeps(awake, cbv, pn, mask))
}

// The answer that goes with a verdict.
pub fn answer(v: Result<bool, Refusal>) -> Answer
    ensures { result ≡ verdict_answer v }
{
    answers::answer_to(v)
}

// The value beside it: 1 where the PDU is kept. A number, by docs/PROMISES.md, `value`: `cannm_pn_filter` gives it to C hosts.
pub fn value(v: Result<bool, Refusal>) -> u8
    ensures { result ≡ verdict_value v }
{
    u8::from(v.unwrap_or(false))
}
