// A record of the file `looks`: kind, side, place (2), port, seconds (2), sender (6) and a length (3).
// Behind kinds 1 and 6 stand as many octets as the length says; they are an LLDPDU, or a frame.
use input::number_at;
use octets::{octet, pair, six};

// The octets of a record before its LLDPDU or frame.
pub(crate) const HEAD: usize = 16;

#[derive(Clone, Copy)]
pub(crate) struct Record {
    pub(crate) kind: u8,
    pub(crate) side: u8,
    pub(crate) place: usize,
    pub(crate) port: u8,
    pub(crate) seconds: u16,
    pub(crate) sender: [u8; 6],
    pub(crate) length: usize,
}

// The record at the front of the octets.
pub(crate) fn record_at(octets: &[u8]) -> Record {
    Record {
        kind: octet(octets, 0),
        side: octet(octets, 1),
        place: pair(octet(octets, 2), octet(octets, 3)) as usize,
        port: octet(octets, 4),
        seconds: pair(octet(octets, 5), octet(octets, 6)),
        sender: six(octets, 7),
        length: number_at(octets, 13, 3),
    }
}

// How many octets stand behind a record: only kinds 1 and 6 have some.
pub(crate) fn octets_behind(r: Record) -> usize {
    match r.kind {
        1 | 6 => r.length,
        _ => 0,
    }
}
