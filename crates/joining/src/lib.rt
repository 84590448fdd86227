// Demand 3 over the calls (R16): extending by one order after another, and extending the better of two
// profiles. Laws only, in specs/.
#![tactic(auto)]
