// Definitions only, to be held beside card 1 of document 02: a quantified boolean formula, its judge, the formula of a problem and its text.
// It rests on `buffer`, `game` and `mask`, and is for `formula_theory` and the crates that write and judge such texts.
#![tactic(auto)]
