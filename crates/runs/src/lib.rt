// Runs: calls one after the other, where every open slot stands, and the plain sorted list. It has no code.
#![tactic(auto)]
