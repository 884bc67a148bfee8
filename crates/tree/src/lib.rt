// The B*-tree that a pool's words stand for, free of slots and locks. It has no code.
#![tactic(auto)]
