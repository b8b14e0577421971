// Theorems over the definitions of `formula`: proofs/Lib.antt says where each stands. It rests on `formula`, `theory`, `buffer`, `game` and
// `mask`, and is for the crates that write and judge such texts.
#![tactic(auto)]
