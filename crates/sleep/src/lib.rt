// In which tick a channel sleeps, over whole lists of calls: the claims are specs/Sleep, their proof is proofs/Theorem.
// There is no code here: they speak of the definitions that the contracts of `channel` cite.
//
// Promises: `every_channel_sleeps`, for every configuration that passes and every list of calls. Leaves to others: that the
// code gives what the definitions say (`calls`, `status`, `reception`, `inputs`, `tick`), and traces (`trace_claims`).
#![tactic(auto)]
