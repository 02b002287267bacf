// A record of the file `events`: a kind, a number of eight octets, a value of two, an address, a length of two.
// As many octets as the length says follow it; they are a frame.
use input::wide_at;
use octets::{octet, pair, six};

// The octets of a record before its frame.
pub(crate) const HEAD: usize = 19;

#[derive(Clone, Copy)]
pub(crate) struct Record {
    pub(crate) kind: u8,
    pub(crate) number: usize,
    pub(crate) value: u16,
    pub(crate) address: [u8; 6],
    pub(crate) length: usize,
}

// The record at the front of the octets.
pub(crate) fn record_at(octets: &[u8]) -> Record {
    Record {
        kind: octet(octets, 0),
        number: wide_at(octets, 1),
        value: pair(octet(octets, 9), octet(octets, 10)),
        address: six(octets, 11),
        length: pair(octet(octets, 17), octet(octets, 18)) as usize,
    }
}
