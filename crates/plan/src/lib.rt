// The plan of an order: the first of the feasible choices by the ranking. Definitions and laws; it
// has no code.
#![tactic(auto)]
