// The neighbour table: which device sits behind which port, kept in a lent buffer beside a struct of numbers and senders.
// Every call takes any table and any buffer; a table that is not fit is refused with 1 and stays as it was.
#![tactic(auto)]

pub use fitness::is_fit;
pub use freeing::{Outcome, empty_table, link_lost, seconds_passed, start};
pub use hearing::{Reception, frame_on_port};
pub use naming::Number;
pub use numbers::{PLACES, Sender, Table};
pub use place::OCTETS;
pub use questions::{Sight, how_many, who_sees};
pub use refusal::Refusal;
pub use rules::Reply;
