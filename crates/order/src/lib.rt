// Jobs, choices and runs: what the rules say of them, and the facts about a job's moves on which
// every other law rests. It has no code.
#![tactic(auto)]
