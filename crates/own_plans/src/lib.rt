// Every plan that is written is legal and best, and reads back as the plan: laws over the calls.
#![tactic(auto)]
