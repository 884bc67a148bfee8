// The little program as a run: its good lines are the calls, what it writes are the answers. It has no code.
#![tactic(auto)]
