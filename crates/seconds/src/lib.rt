// Signed seconds: the laws by which the prover reads signed numbers, the ranges that the rules fix and
// two's complement. It has no code: the other crates' definitions and proofs cite it.
#![tactic(auto)]
