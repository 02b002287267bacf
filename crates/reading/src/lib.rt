// The whole reading of an LLDPDU: its extent, every field that is read, and the HTIP verdict.
// The description holds numbers and parts of the LLDPDU, so that what was read can be written as it stands.
#![tactic(auto)]

ghost use Rattle.std.specs.Prelude.{◌≡◌, ◌^◌, ◌<◌, ◌≤◌, length};
ghost use Rattle.fields.specs.Field.{link};
ghost use Rattle.found.specs.Found.{mark_of};
ghost use Rattle.reading.specs.Reading.{table_in, link_at, optional_at, description_at};
ghost use Rattle.reading.specs.Meaning.{Reads};

use found::{Found, Mark, gathered, is_htip, part_at};
use lldpdu::{IdPart, Outline, outline_front};
use octets::octet;
use refusal::Refusal;
use system::{System, system_at};
use text::{Part, text_of};

// A link information: the octets of its interface type, of its port number and of all its addresses (T7).
#[derive(Clone, Copy)]
pub struct Link {
    pub interface: Part,
    pub port: Part,
    pub addresses: Part,
}

// What an announcement says, for the reader and for the writer. An absent string is an empty part (A2).
#[derive(Clone, Copy)]
pub struct Description {
    pub chassis: IdPart,
    pub port: IdPart,
    pub seconds: u16,
    // the port description
    pub words: Part,
    pub category: Part,
    pub manufacturer: Part,
    // model name and model number
    pub model: Part,
    pub number: Part,
    pub link: Option<Link>,
    // the octets of extension link information behind the subtype (T11)
    pub extension: Option<Part>,
    // the octets of all addresses of the address list (T8)
    pub list: Option<Part>,
    // the standard's own fields (S1 to S5)
    pub system: System,
}

#[derive(Clone, Copy)]
pub struct Reading {
    // the octets through the End TLV
    pub octets: usize,
    pub htip: bool,
    pub description: Description,
}

// Link information from its content, which is all that is read; in the LLDPDU it lies at start (L2, T7).
fn table_in(part: &[u8], start: usize) -> Link
    requires { start < 2 ^ 63 }
    ensures { result ≡ table_in part.now start }
{
    let n = octet(part, 0) as usize;
    let m = octet(part, 1 + n) as usize;
    let k = octet(part, 2 + n + m) as usize;
    Link {
        interface: Part {
            start: start + 1,
            len: n,
        },
        port: Part {
            start: start + 2 + n,
            len: m,
        },
        addresses: Part {
            start: start + 3 + n + m,
            len: 6 * k,
        },
    }
}

// Absent, or the first link information, read from the part that its mark delimits (A2, A3).
#[tactic(auto, unfolding(crate::specs::Reading::link_at, crate::specs::Reading::optional_at))]
fn link_at(s: &[u8], m: Mark) -> Option<Link>
    requires { m.start ≤ length s.now }
    ensures { result ≡ link_at s.now m }
{
    let content = optional_at(m)?;
    Some(table_in(text_of(s, content), content.start))
}

// Absent, or the first content of a topic.
#[tactic(auto, unfolding(crate::specs::Reading::optional_at))]
fn optional_at(m: Mark) -> Option<Part>
    ensures { result ≡ optional_at m }
{
    if m.times == 0 {
        return None;
    }
    Some(part_at(m))
}

// An ID, field by field: copied whole, it takes the gap behind its subtype along, octet by octet.
fn id_of(i: IdPart) -> IdPart
    ensures { result ≡ i }
{
    IdPart {
        subtype: i.subtype,
        octets: Part {
            start: i.octets.start,
            len: i.octets.len,
        },
    }
}

// Chassis, port ID and seconds are those of the outline; the rest is what was found behind them.
fn description_at(s: &[u8], o: Outline, found: Found) -> Description
    requires { (mark_of link found).start ≤ length s.now }
    ensures { result ≡ description_at s.now o found }
{
    Description {
        chassis: id_of(o.chassis),
        port: id_of(o.port),
        seconds: o.seconds,
        words: part_at(found.marks[fields::PORT_DESCRIPTION]),
        category: part_at(found.marks[fields::CATEGORY]),
        manufacturer: part_at(found.marks[fields::MANUFACTURER]),
        model: part_at(found.marks[fields::MODEL_NAME]),
        number: part_at(found.marks[fields::MODEL_NUMBER]),
        link: link_at(s, found.marks[fields::LINK]),
        extension: optional_at(found.marks[fields::EXTENSION]),
        list: optional_at(found.marks[fields::ADDRESS_LIST]),
        system: system_at(s, found),
    }
}

pub fn read_lldpdu(s: &[u8]) -> Result<Reading, Refusal>
    ensures { Reads s.now result }
{
    let o = outline_front(s)?;
    let survey = gathered(s, o.octets);
    let octets = survey.extent?;
    let found = survey.found;
    Ok(Reading {
        octets,
        htip: is_htip(found),
        description: description_at(s, o, found),
    })
}
