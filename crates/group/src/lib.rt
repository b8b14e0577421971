// Definitions only, over a problem: its groups of variables, the problem of a group and its file (document 02, card 4). It rests on
// `problem_numbers` and `game`.
#![tactic(auto)]
