// Theorems only, over the contracts of reader, look-up and writer: what is read and looked up writes the same file again, what is written
// reads as it was handed in, and a list of bytes is accepted exactly if it is the file of numbers that the writer takes. See
// proofs/RoundTrip.antt.
#![tactic(auto)]
