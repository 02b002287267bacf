// What changed between two looks at a table (D1, D2, D5), over the model's places and for any number of them.
// There is no code here: see specs/ for what the entries and the changes are, and proofs/ for why they account for the second look.
#![tactic(auto)]
