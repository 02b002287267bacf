// The system fields: system name, system description, capabilities and management addresses (S1 to S5).
// How they are read of what was found in an LLDPDU, and whether those of a description keep the rules.
#![tactic(auto)]

ghost use Rattle.std.specs.Prelude.{◌≡◌};
ghost use Rattle.tally.specs.Tests.{all, is_none};
ghost use Rattle.text.specs.Part.{texts_of};
ghost use Rattle.system.specs.System.{short_at, capabilities_in, system_at, empty_system, system_meant, management_sound, system_rules, absent_rules};

use fields::management_fits;
use found::{Found, Mark, part_at};
use octets::{octet, pair};
use text::{Part, Parts, empty_parts, part_count, text_of};

// Two sets of sixteen flags: what the system can do, and what of it is enabled (S2).
#[derive(Clone, Copy)]
pub struct Capabilities {
    pub able: u16,
    pub enabled: u16,
}

// An absent name or description is an empty part (A2). What is narrower than a word stands last, where no gap behind it is copied.
#[derive(Clone, Copy)]
pub struct System {
    pub name: Part,
    pub description: Part,
    pub management: Parts,
    pub capabilities: Option<Capabilities>,
}

// The most octets of a name or a description (S1).
const LONGEST: usize = 255;

pub fn empty_system() -> System
    ensures { result ≡ empty_system }
{
    let nowhere = Part { start: 0, len: 0 };
    System {
        name: nowhere,
        description: nowhere,
        capabilities: None,
        management: empty_parts(),
    }
}

// Name or description at its first occurrence; of a wrong length it is absent (S1, S4).
#[tactic(auto, unfolding(crate::specs::System::short_at))]
fn short_at(m: Mark) -> Part
    ensures { result ≡ short_at m }
{
    if m.len > LONGEST {
        return Part { start: 0, len: 0 };
    }
    part_at(m)
}

// Capabilities by their octets; of a wrong length they are absent, and absent ones have no octets (S2, S4).
#[tactic(auto, unfolding(crate::specs::System::capabilities_in))]
fn capabilities_in(octets: &[u8]) -> Option<Capabilities>
    ensures { result ≡ capabilities_in octets.now }
{
    if octets.len() != 4 {
        return None;
    }
    Some(Capabilities {
        able: pair(octet(octets, 0), octet(octets, 1)),
        enabled: pair(octet(octets, 2), octet(octets, 3)),
    })
}

// What was found of the system fields, in the LLDPDU s.
pub fn system_at(s: &[u8], found: Found) -> System
    ensures { result ≡ system_at s.now found }
{
    System {
        name: short_at(found.marks[fields::SYSTEM_NAME]),
        description: short_at(found.marks[fields::SYSTEM_DESCRIPTION]),
        capabilities: capabilities_in(text_of(s, part_at(found.marks[fields::CAPABILITIES]))),
        management: found.management,
    }
}

// Each management address has a right length (S3).
fn management_sound(text: &[u8], l: Parts) -> bool
    ensures { result ≡ management_sound (texts_of text.now l) }
{
    l.parts[..part_count(l)]
        .iter()
        .all(|p| management_fits(text_of(text, *p).len()))
}

// What a description says of the system keeps S1 and S3. More than four addresses it cannot say: a count above four is refused by the test of parts (W7).
pub fn system_fits(text: &[u8], x: System) -> bool
    ensures { result ≡ all (system_rules (system_meant text.now x)) }
{
    text_of(text, x.name).len() <= LONGEST
        && text_of(text, x.description).len() <= LONGEST
        && management_sound(text, x.management)
}

// A description says nothing of the system, as a goodbye must (W3).
pub fn system_absent(text: &[u8], x: System) -> bool
    ensures { result ≡ all (absent_rules (system_meant text.now x)) }
{
    text_of(text, x.name).is_empty()
        && text_of(text, x.description).is_empty()
        && x.capabilities.is_none()
        && part_count(x.management) == 0
}
