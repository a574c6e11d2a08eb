// The worked cases of document 01 that are to be proved, as one table (specs/Cases), with the theorem that each holds
// (proofs/EveryCase). There is no code here: the cases speak of the definitions that the other crates' contracts cite.
//
// Promises: every row of the table holds. Leaves to others: the cases that are run and not proved (`trace_cases`).
#![tactic(auto)]
