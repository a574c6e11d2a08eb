// What a call can return: done, or a refusal, each with its number.
//
// Promises: one number for each answer, and the number of the broken rule where there is one. Leaves to others:
// when an answer is given.
#![tactic(auto)]

ghost use Rattle.std.specs.Prelude.{◌≡◌, cond};
ghost use Rattle.answers.specs.Answers.{answer_to, number_of, number_of_rule, rule_of, ruled};
ghost use Rattle.answers.specs.declared.Refusal.TheVariants.{Rule};

// The rules of a configuration, numbered from 1 in the order in which they are judged.
#[derive(Clone, Copy, PartialEq, Eq)]
pub enum BrokenRule {
    // The period of the main function is within its bounds.
    Period = 1,
    // Every time, the number of fast frames and the node id are within their bounds.
    Bounds = 2,
    // The offset is below the cycle.
    Offset = 3,
    // Fast frames have a cycle of at least one tick.
    FastCycle = 4,
    // The timeout is above the cycle.
    Timeout = 5,
    // The length of the PDU is within its bounds.
    PduLength = 6,
    // The header fields have places of their own in the PDU.
    Header = 7,
    // The PN range, the mask and the reset time fit the rest.
    PartialNetwork = 8,
}

impl BrokenRule {
    // Broken, unless the test of the rule holds.
    pub fn unless(self, kept: bool) -> Result<(), BrokenRule>
        ensures { result ≡ cond kept (Ok tt) (Err self) }
    {
        if kept { Ok(()) } else { Err(self) }
    }

    // The number of a rule. A number, since the C functions `cannm_ticks` and `cannm_read_pdu` give it to hosts.
    pub fn number(self) -> u8
        ensures { result ≡ number_of_rule self }
    {
        self as u8
    }
}

#[derive(Clone, Copy, PartialEq, Eq)]
pub enum Refusal {
    // The state handed in is not sound.
    Unsound,
    // A configuration rule is broken: the first.
    Rule(BrokenRule),
    // The call is not for the present state.
    State,
    // The call is not for a passive channel.
    Passive,
    // A PDU, user data or PN bytes not of the configured length, or a frame buffer that is too short; a block of a trace that
    // is too long, or that has too many lines.
    Length,
    // The call is for a channel with partial networking on.
    PnOff,
}

impl From<BrokenRule> for Refusal {
    ghost from_gives = { λ rule refusal. refusal ≡ Rule rule };

    fn from(rule: BrokenRule) -> Refusal {
        Refusal::Rule(rule)
    }
}

// `Ok` where the call was carried out.
pub type Answer = Result<(), Refusal>;

// The answer to what gives a value, or is refused.
pub fn answer_to<T: Drop>(r: Result<T, Refusal>) -> Answer
    ensures { result ≡ answer_to r }
{
    r?;
    Ok(())
}

// The answer to what gives a value, or breaks a rule.
pub fn ruled<T: Drop>(r: Result<T, BrokenRule>) -> Answer
    ensures { result ≡ ruled r }
{
    answer_to(r.map_err(Refusal::from))
}

// The number of an answer. A number, since every answer of the C functions in `cannm_c` is one.
pub fn number(a: Answer) -> u8
    ensures { result ≡ number_of a }
{
    match a {
        Ok(()) => 0,
        Err(Refusal::Unsound) => 1,
        Err(Refusal::Rule(_)) => 2,
        Err(Refusal::State) => 3,
        Err(Refusal::Passive) => 4,
        Err(Refusal::Length) => 5,
        Err(Refusal::PnOff) => 6,
    }
}

// The number of the broken rule, 0 where the answer is not about one: the C functions `cannm_ticks` and `cannm_read_pdu` give it.
pub fn rule(a: Answer) -> u8
    ensures { result ≡ rule_of a }
{
    match a {
        Err(Refusal::Rule(rule)) => rule.number(),
        _ => 0,
    }
}
