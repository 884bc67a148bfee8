// What is promised of the rules: the bench, the three demands, that a regraded lot is never nowhere, and that the top page stays open.
#![tactic(auto)]
