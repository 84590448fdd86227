// Lists of scheduling points: each prefix of an order as its list, made from the one before by three cases,
// and the walk back over these lists. Definitions and laws alone. Assumes nothing.
#![tactic(auto)]
