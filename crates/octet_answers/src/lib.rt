// The octets of each answer (X4), put into a lent slice of its length; a refusal's number is returned, and leaves the slice as it was.
// A slice of another length is refused with 1 and is not written (X2).
#![tactic(auto)]

mod readings;
mod replies;

pub use readings::{JUDGED, VERDICT, WRITTEN, answer_judged, answer_reading, answer_written};
pub use replies::{
    COMPARED, COUNT, REPLY, SIGHT, answer_compared, answer_count, answer_reply, answer_sight,
};

// A slice with a fixed length that comes with another.
pub const WRONG_LENGTH: u8 = refusal::Refusal::Unfit as u8;
