// The worked examples P1 to P11, a week of orders, and the figures of the rules, computed on the definitions. It has no code.
#![tactic(auto)]
