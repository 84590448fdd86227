// Tomorrow's frame is today's again: what planning says of two frames and more, from what it says of one. Laws over the calls.
#![tactic(auto)]
