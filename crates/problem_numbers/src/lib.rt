// Definitions, and one law: the numbers of a problem as the writer takes them, and the file of these numbers. It rests on `file_bytes` and `game`.
#![tactic(auto)]
