// The library for C: the calls of `exports` under their C names, each with the promise of the one that it calls.
// A static library is nothing that another crate can stand on, so the calls and their proofs are in `exports`.
#![tactic(auto)]

mod calls;
mod frames;
mod looks;
mod sizes;
