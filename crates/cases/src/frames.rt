// The cases of the file `frames`: frames and bare LLDPDUs, three lines of answers each, and one more where there is extension link information.
// A case is a kind (0 a frame, 1 a bare LLDPDU), the address that is asked for, two numbers that are, a length of two octets, and the octets.
use crate::print::{say_extension, say_naming, say_outline, say_reading};
use input::{number_at, split_behind};
use naming::link_naming;
use octets::{octet, six};
use reader::{outline_frame, outline_lldpdu, read_frame, read_lldpdu};
use std::io;
use text::{Part, text_of};

// The octets of a case before its frame or LLDPDU.
const HEAD: usize = 11;

// The parts of a frame's reading count from the octet behind the header (F1).
const LLDPDU: Part = Part {
    start: 14,
    len: 65535,
};

fn answer(
    rt: &impl Print,
    case: usize,
    is_frame: bool,
    address: [u8; 6],
    i: usize,
    j: usize,
    octets: &[u8],
) -> io::Result<()> {
    let (lldpdu, outline, reading) = if is_frame {
        let lldpdu = text_of(octets, LLDPDU);
        (lldpdu, outline_frame(octets), read_frame(octets))
    } else {
        (octets, outline_lldpdu(octets), read_lldpdu(octets))
    };
    say_outline(rt, case, lldpdu, outline)?;
    say_reading(rt, case, lldpdu, reading)?;
    if let Ok(r) = reading {
        say_extension(rt, case, lldpdu, r, i, j)?;
    }
    say_naming(rt, case, lldpdu, link_naming(lldpdu, address))
}

// The case at the front of the octets; what stands behind it.
pub(crate) fn run_case<'a>(rt: &impl Print, case: usize, octets: &'a [u8]) -> io::Result<&'a [u8]> {
    let (own, behind) = split_behind(octets, HEAD, number_at(octets, 9, 2));
    answer(
        rt,
        case,
        octet(octets, 0) == 0,
        six(octets, 1),
        number_at(octets, 7, 1),
        number_at(octets, 8, 1),
        own,
    )?;
    Ok(behind)
}
