// What holds for a caller in C: demand 3 of every run of the exports' contracts, and that what is read and what changed cross whole.
// There is no code here: see proofs/Runs.antt, proofs/ReadLaws.antt and proofs/ChangesLaws.antt.
#![tactic(auto)]
