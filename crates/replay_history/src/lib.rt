// What a replay leaves in the table: demand 3 over the history of its calls, and that a file may be cut into any pieces (C9).
// There is no code here: see specs/ for what is promised and proofs/ for why it holds.
#![tactic(auto)]
