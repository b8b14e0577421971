// C functions for the bench programs: decoding, the rules' entries and judging, each reply as one number. Not for callers.
#![tactic(auto)]

mod number;
mod rules_alone;
mod whole_search;
