// Profiles: how early the bus is free for each weight kept. Definitions and laws; it has no code.
#![tactic(auto)]
