// Tests and ranges, as definitions and laws that every crate above shares.
// There is no code here: see specs/ for the definitions and proofs/ for their laws.
#![tactic(auto)]
