// Plans and profiles do not read a job's pack (R44): laws over the packed orders and over the calls. Laws only, in specs/.
#![tactic(auto)]
