// Weight rows: the earliest bus-free time per exact weight kept, and the plan and the profile read
// off them. Definitions and laws for the planner's loops; it has no code.
#![tactic(auto)]
