// The LLDPDU: what its first three TLVs must be, the walk behind them, and its outline.
// Validity, identity and seconds are decided here; what the other fields say is the reader's.
#![tactic(auto)]

mod extent;
mod leading;
mod outline;
mod places;

pub use extent::rest_extent;
pub use ids::IdPart;
pub use leading::{Leading, leading_of};
pub use outline::{Outline, extent_of, outline_front, outline_lldpdu};
pub use places::{chassis_of, port_of, rest_place};
