// Calls of the library, one after the other, are a run: so the demands hold of the words that it leaves and the numbers that it
// tells. It has no code.
#![tactic(auto)]
