// The cases of the file `announcements`: descriptions that are written, read back and written again.
// A case is the numbers and parts of a description, the room of the output, and the text that the parts lie in.
ghost use Rattle.std.specs.Prelude.{◌<◌, ◌≤◌, length};

use crate::print::{Form, say, say_reading, say_refused};
use ids::IdPart;
use input::{number_at, split_behind, wide_at};
use octets::{octet, pair};
use reader::read_lldpdu;
use reading::{Description, Link, Reading};
use refusal::Refusal;
use std::io;
use system::{Capabilities, System};
use text::{Part, Parts, text_of};
use writer::write;

// The octets of a case before its text.
const HEAD: usize = 312;

// The most octets of an output.
const ROOM: usize = 1600;

// What every octet of an output has before the call, so that what was not written shows (W4).
const UNTOUCHED: u8 = 0xEE;

fn part_at(octets: &[u8], at: usize) -> Part
    requires { at < 900 }
{
    Part {
        start: wide_at(octets, at),
        len: wide_at(octets, at + 8),
    }
}

// An ID whose subtype and whose part stand at two places.
fn id_at(octets: &[u8], subtype: usize, part: usize) -> IdPart
    requires { part < 900 }
{
    IdPart {
        subtype: octet(octets, subtype),
        octets: part_at(octets, part),
    }
}

fn link_at(octets: &[u8]) -> Option<Link> {
    if octet(octets, 116) == 0 {
        return None;
    }
    Some(Link {
        interface: part_at(octets, 117),
        port: part_at(octets, 133),
        addresses: part_at(octets, 149),
    })
}

// A part that may be absent, behind an octet that says whether it is there.
fn optional_at(octets: &[u8], at: usize) -> Option<Part>
    requires { at < 800 }
{
    if octet(octets, at) == 0 {
        return None;
    }
    Some(part_at(octets, at + 1))
}

fn capabilities_at(octets: &[u8]) -> Option<Capabilities> {
    if octet(octets, 214) == 0 {
        return None;
    }
    Some(Capabilities {
        able: pair(octet(octets, 215), octet(octets, 216)),
        enabled: pair(octet(octets, 217), octet(octets, 218)),
    })
}

// The count, and the four parts whatever it says.
fn management_at(octets: &[u8]) -> Parts {
    Parts {
        count: wide_at(octets, 219),
        parts: [
            part_at(octets, 227),
            part_at(octets, 243),
            part_at(octets, 259),
            part_at(octets, 275),
        ],
    }
}

fn system_at(octets: &[u8]) -> System {
    System {
        name: part_at(octets, 182),
        description: part_at(octets, 198),
        capabilities: capabilities_at(octets),
        management: management_at(octets),
    }
}

fn description_at(octets: &[u8]) -> Description {
    Description {
        chassis: id_at(octets, 0, 4),
        port: id_at(octets, 1, 20),
        seconds: pair(octet(octets, 2), octet(octets, 3)),
        words: part_at(octets, 36),
        category: part_at(octets, 52),
        manufacturer: part_at(octets, 68),
        model: part_at(octets, 84),
        number: part_at(octets, 100),
        link: link_at(octets),
        extension: optional_at(octets, 291),
        list: optional_at(octets, 165),
        system: system_at(octets),
    }
}

// How many octets an output has without those at its end that have the untouched value.
fn touched(out: &[u8]) -> usize
    ensures { result ≤ length out.now }
{
    out.iter()
        .rposition(|octet| *octet != UNTOUCHED)
        .map_or(0, |last| last + 1)
}

fn say_output(rt: &impl Print, case: usize, out: &[u8]) -> io::Result<()> {
    let n = touched(out);
    say(rt, Form::Output, &[case, 0, n, out.len() - n], out)
}

// What was read, written again.
fn say_again(rt: &impl Print, case: usize, lldpdu: &[u8], r: Reading) -> io::Result<()> {
    let mut out = [UNTOUCHED; ROOM];
    match write(r.description, lldpdu, &mut out) {
        Ok(n) => say(rt, Form::Again, &[case, n, 0, n], &out),
        Err(refusal) => say_refused(rt, Form::AgainRefused, case, refusal),
    }
}

// What was written is read again.
fn say_answer(
    rt: &impl Print,
    case: usize,
    written: Result<usize, Refusal>,
    out: &[u8],
) -> io::Result<()> {
    match written {
        Ok(n) => {
            let lldpdu = text_of(out, Part { start: 0, len: n });
            say(rt, Form::Wrote, &[case, n], out)?;
            say_output(rt, case, out)?;
            let reading = read_lldpdu(lldpdu);
            say_reading(rt, case, lldpdu, reading)?;
            match reading {
                Ok(r) => say_again(rt, case, lldpdu, r),
                Err(_) => Ok(()),
            }
        }
        Err(refusal) => {
            say_refused(rt, Form::Refused, case, refusal)?;
            say_output(rt, case, out)
        }
    }
}

// The output is the front of a longer one.
fn answer(
    rt: &impl Print,
    case: usize,
    d: Description,
    text: &[u8],
    room: usize,
) -> io::Result<()> {
    let mut longer = [UNTOUCHED; ROOM];
    if let Some(out) = longer.get_mut(..room) {
        let written = write(d, text, out);
        return say_answer(rt, case, written, out);
    }
    // A case that asks for more room than there is: nothing is written.
    say(rt, Form::Refused, &[case, 0], b"")?;
    say_output(rt, case, &longer)
}

// The case at the front of the octets; what stands behind it.
pub(crate) fn run_case<'a>(rt: &impl Print, case: usize, octets: &'a [u8]) -> io::Result<&'a [u8]> {
    let (text, behind) = split_behind(octets, HEAD, number_at(octets, 310, 2));
    let room = pair(octet(octets, 308), octet(octets, 309)) as usize;
    answer(rt, case, description_at(octets), text, room)?;
    Ok(behind)
}
