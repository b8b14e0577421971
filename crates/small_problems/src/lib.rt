// The small problems G1 to G10 of document 01 and card 7's job, definitions and one theorem: the table is specs/Table.antt, the theorem
// proofs/SmallProblems.antt. It rests on what the entries' contracts name; no crate rests on it.
#![tactic(auto)]
