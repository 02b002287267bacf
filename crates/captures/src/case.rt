// A case of the file `captures`: whether its table goes on, port, limit, when the table is spoiled, length of the record buffer, length of the capture.
// They have 1, 8, 8, 8, 2 and 4 octets, high octet first; a table that is to be spoiled behind more octets than the capture has never is.
// As many octets as the last says follow; they are the capture.
use input::{number_at, wide_at};
use octets::{octet, pair};

// The octets of a case before its capture.
pub(crate) const HEAD: usize = 31;

#[derive(Clone, Copy)]
pub(crate) struct Case {
    pub(crate) goes_on: bool,
    pub(crate) port: usize,
    pub(crate) limit: usize,
    pub(crate) spoil: usize,
    pub(crate) room: usize,
    pub(crate) length: usize,
}

// The case at the front of the octets.
pub(crate) fn case_at(octets: &[u8]) -> Case {
    Case {
        goes_on: octet(octets, 0) == 1,
        port: wide_at(octets, 1),
        limit: wide_at(octets, 9),
        spoil: wide_at(octets, 17),
        room: pair(octet(octets, 25), octet(octets, 26)) as usize,
        length: number_at(octets, 27, 4),
    }
}
