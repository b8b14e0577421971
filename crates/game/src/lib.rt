// Definitions only, to be held beside document 01: the game, the rules and the search. specs/Lib.antt says which sentence each file
// answers. It rests on `mask` and `rule_set`, and is for `theory` and the crates of the solver.
#![tactic(auto)]
