// Packing and unpacking one after the other: laws only, in specs/.
#![tactic(auto)]
