// Hollow versions of the calls, each shut out by its contract: laws only, in specs/. It has no code.
#![tactic(auto)]
