// The hidden variable encoding (document 02, card 7): the problem of binary constraints that one with three-way constraints is turned into, and that both have
// one game. The definition is in specs/, the theorems in proofs/. It rests on `theory`, `game` and `mask`, and is for the crates of the solver.
#![tactic(auto)]
