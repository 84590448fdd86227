// The calls that plan, as computed from weight rows and as computed from lists of points: the same answers and the same
// buffers for every input. Definitions and laws alone. Assumes nothing.
#![tactic(auto)]
