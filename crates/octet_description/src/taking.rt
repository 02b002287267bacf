// The description that lent octets mean (X5), field by field.
// A place is a number of this file, so the places inside a field are never past the last number.
ghost use Rattle.std.specs.Prelude.{◌≡◌, ◌≤◌};
ghost use Rattle.octet_description.specs.Octets.{number_from, part_from, id_from, is_there, optional_from, link_from, flags_from, parts_from, system_from, description_in, presences_ok};

use ids::IdPart;
use octets::{octet, pair};
use reading::{Description, Link};
use system::{Capabilities, System};
use text::{Part, Parts};

// Where the fields stand.
const CHASSIS: usize = 0;

const PORT: usize = 5;

const SECONDS: usize = 10;

const WORDS: usize = 12;

const CATEGORY: usize = 16;

const MANUFACTURER: usize = 20;

const MODEL: usize = 24;

const NUMBER: usize = 28;

const LINK: usize = 32;

const EXTENSION: usize = 45;

const LIST: usize = 50;

const SYSTEM: usize = 55;

const CAPABILITIES: usize = SYSTEM + 8;

const MANAGEMENT: usize = SYSTEM + 13;

fn number_from(o: &[u8], at: usize) -> u16
    requires { at ≤ 255 }
    ensures { result ≡ number_from o.now at }
{
    pair(octet(o, at), octet(o, at + 1))
}

fn part_from(o: &[u8], at: usize) -> Part
    requires { at ≤ 200 }
    ensures { result ≡ part_from o.now at }
{
    Part {
        start: number_from(o, at) as usize,
        len: number_from(o, at + 2) as usize,
    }
}

fn id_from(o: &[u8], at: usize) -> IdPart
    requires { at ≤ 100 }
    ensures { result ≡ id_from o.now at }
{
    IdPart {
        subtype: octet(o, at),
        octets: part_from(o, at + 1),
    }
}

fn is_there(o: &[u8], at: usize) -> bool
    ensures { result ≡ is_there o.now at }
{
    octet(o, at) == 1
}

fn optional_from(o: &[u8], at: usize) -> Option<Part>
    requires { at ≤ 100 }
    ensures { result ≡ optional_from o.now at }
{
    if !is_there(o, at) {
        return None;
    }
    Some(part_from(o, at + 1))
}

fn link_from(o: &[u8], at: usize) -> Option<Link>
    requires { at ≤ 100 }
    ensures { result ≡ link_from o.now at }
{
    if !is_there(o, at) {
        return None;
    }
    Some(Link {
        interface: part_from(o, at + 1),
        port: part_from(o, at + 5),
        addresses: part_from(o, at + 9),
    })
}

fn flags_from(o: &[u8], at: usize) -> Option<Capabilities>
    requires { at ≤ 100 }
    ensures { result ≡ flags_from o.now at }
{
    if !is_there(o, at) {
        return None;
    }
    Some(Capabilities {
        able: number_from(o, at + 1),
        enabled: number_from(o, at + 3),
    })
}

fn parts_from(o: &[u8], at: usize) -> Parts
    requires { at ≤ 100 }
    ensures { result ≡ parts_from o.now at }
{
    Parts {
        count: octet(o, at) as usize,
        parts: [
            part_from(o, at + 1),
            part_from(o, at + 5),
            part_from(o, at + 9),
            part_from(o, at + 13),
        ],
    }
}

fn system_from(o: &[u8]) -> System
    ensures { result ≡ system_from o.now 55 }
{
    System {
        name: part_from(o, SYSTEM),
        description: part_from(o, SYSTEM + 4),
        capabilities: flags_from(o, CAPABILITIES),
        management: parts_from(o, MANAGEMENT),
    }
}

// What a presence other than 1 stands before is absent; one above 1 is told by presences_fit.
#[tactic(auto, unfolding(crate::specs::Octets::description_in))]
pub fn description_in(o: &[u8]) -> Description
    ensures { result ≡ description_in o.now }
{
    Description {
        chassis: id_from(o, CHASSIS),
        port: id_from(o, PORT),
        seconds: number_from(o, SECONDS),
        words: part_from(o, WORDS),
        category: part_from(o, CATEGORY),
        manufacturer: part_from(o, MANUFACTURER),
        model: part_from(o, MODEL),
        number: part_from(o, NUMBER),
        link: link_from(o, LINK),
        extension: optional_from(o, EXTENSION),
        list: optional_from(o, LIST),
        system: system_from(o),
    }
}

// Each presence is 0 or 1.
#[tactic(auto, unfolding(crate::specs::Octets::presences_ok))]
pub fn presences_fit(o: &[u8]) -> bool
    ensures { result ≡ presences_ok o.now }
{
    octet(o, LINK) < 2
        && octet(o, EXTENSION) < 2
        && octet(o, LIST) < 2
        && octet(o, CAPABILITIES) < 2
}
