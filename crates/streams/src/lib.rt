// Streams of orders, each behind its length: definitions and laws, no code.
#![tactic(auto)]
