// Choices as functions: a rule or a loop body that calls one has no branch of its own, so that its proof is one
// line and a loop over a table becomes vector code.
//
// Promises: each function is the library's operation of the same meaning. Leaves to others: what is chosen, and why.
#![tactic(auto)]

ghost use Rattle.std.specs.Prelude.{◌≡◌, ltb, cond};

// The first where the test holds, else the second.
pub fn pick<T: Copy>(test: bool, a: T, b: T) -> T
    ensures { result ≡ cond test a b }
{
    if test { a } else { b }
}

// A number of 16 bits, 0 where it has more.
pub fn narrow16(x: u64) -> u16
    ensures { result ≡ cond (ltb x 65536) x 0 }
{
    u16::try_from(x).unwrap_or(0)
}
