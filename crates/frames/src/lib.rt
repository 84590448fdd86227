// Repeating jobs and one frame of them: the repeats, their sequence and the order that they make, as definitions and laws that
// the code which judges and writes frames is proved against.
#![tactic(auto)]
