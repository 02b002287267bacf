// A description as octets (X5), for a caller that has no structs of ours: put into a lent output, and read from a lent slice.
// Any description and any octets get an answer; what octets past the end would say is 0.
#![tactic(auto, unfolding(output::specs::Output::puts))]

mod putting;
mod taking;

pub use putting::{put_description, put_front, put_two};
pub use taking::{description_in, presences_fit};

// How many octets a description has.
pub const SIZE: usize = 85;
