// Demand 3, stated over histories of frames, seconds and lost links, and proved of the table.
// There is no code here: see specs/ for what is promised and proofs/ for why it holds.
#![tactic(auto)]
