// Easier jobs, never a worse plan (R51): laws over the packed orders and over the calls. Laws only, in specs/.
#![tactic(auto)]
