// Theorems only: the writer takes a problem's numbers, and the file that it makes of them is accepted and states a problem whose game is the
// same (proofs/FileLaws.antt); an accepted file without three-way constraints is the file of the problem that it states (proofs/FileBack.antt).
#![tactic(auto)]
