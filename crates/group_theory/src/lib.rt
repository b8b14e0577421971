// Theorems only, of problems: two variables are in one group exactly if a chain joins them, and a problem is won exactly if each of its groups'
// problems is. See proofs/GroupVerdict.antt.
#![tactic(auto)]
