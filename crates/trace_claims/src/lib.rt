// What is claimed of whole traces: the claims are specs/Claims, their proof is proofs/Theorem. There is no code here: they
// speak of the definitions that the contracts of `trace` and of the crates below it cite.
//
// Promises: the claims, for every list of lines and of blocks and for every text. Leaves to others: that the code gives what the
// definitions say (`trace`), and what is read and written (`cannm_trace`).
#![tactic(auto)]
