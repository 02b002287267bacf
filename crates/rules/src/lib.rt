// The words of the table's rules that code and proofs share: the answers to a frame that is not refused, and what the shares say of a new record.
// The definitions in specs/ speak of these same types, so that nothing is said in two ways.
#![tactic(auto)]

// What the table answers to a frame on a port (N7), where it is not refused.
#[derive(Clone, Copy, Debug, PartialEq, Eq)]
pub enum Reply {
    Recorded,
    Refreshed,
    Gone,
    UnknownGoodbye,
}

// What the shares say of a new record (N12, N13): there is room, its chassis is loud (R13), the port is full (R7), or the common places are taken (R8).
#[derive(Clone, Copy)]
pub enum Room {
    Enough,
    Loud,
    Full,
    Taken,
}
