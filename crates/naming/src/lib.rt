// Who sees an address: the first TLV of an LLDPDU that is well-formed link information, basic or extension, and names it (A4).
// HTIP or not does not matter, and what is malformed is passed over.
#![tactic(auto)]

ghost use Rattle.std.specs.Prelude.{◌≡◌, ◌≤◌, length, drop, get_or};
ghost use Rattle.walk.specs.Walk.{walk};
ghost use Rattle.lldpdu.specs.Extent.{rest_of};
ghost use Rattle.naming.specs.Naming.{sees_in, number_in, numbers_in, Numbered, first_naming, Names};

use extension::{extension_fits, extension_names};
use fields::is_ttc;
use links::{link_fits, names};
use lldpdu::{extent_of, rest_place};
use octets::{octet, value_of};
use refusal::Refusal;
use walk::{Step, step_at};

// A number as it was sent: its count of octets and its value, so that 00 06 is not 06.
#[derive(Clone, Copy)]
pub struct Number {
    pub octets: usize,
    pub value: u32,
}

// The two numbers of the link information that names the address.
#[derive(Clone, Copy)]
pub struct Naming {
    pub interface: Number,
    pub port: Number,
}

// Link information: a TLV of type 127 with subtype 2 (T1, T7).
#[tactic(auto, unfolding(fields::specs::Field::field_of, fields::specs::Field::ttc_of, fields::specs::Field::link_of))]
fn link_sees(part: &[u8], address: [u8; 6]) -> bool
    requires { get_or part.now 3 0 ≡ 2 }
    ensures { result ≡ sees_in 127 part.now address }
{
    is_ttc(part) && link_fits(part) && names(part, address)
}

// Extension link information: a TLV of type 127 with subtype 4 (T1, T11).
#[tactic(auto, unfolding(fields::specs::Field::field_of, fields::specs::Field::ttc_of, fields::specs::Field::extension_of))]
fn extension_sees(part: &[u8], address: [u8; 6]) -> bool
    requires { get_or part.now 3 0 ≡ 4 }
    ensures { result ≡ sees_in 127 part.now address }
{
    if !is_ttc(part) {
        return false;
    }
    let content = &part[4..];
    extension_fits(content) && extension_names(content, address)
}

// Whether a TLV is well-formed link information of either kind and names the address. What a field says is not asked: type and subtype pass most TLVs over.
fn sees(kind: u8, part: &[u8], address: [u8; 6]) -> bool
    ensures { result ≡ sees_in kind part.now address }
{
    if kind != 127 {
        return false;
    }
    match octet(part, 3) {
        2 => link_sees(part, address),
        4 => extension_sees(part, address),
        _ => false,
    }
}

fn number_of(part: &[u8]) -> Number
    requires { length part.now ≤ 4 }
    ensures { result ≡ number_in part.now }
{
    Number {
        octets: part.len(),
        value: value_of(part),
    }
}

// Interface type and port number, which stand at the same places in both kinds of link information.
#[tactic(auto, unfolding(crate::specs::Naming::numbers_in))]
fn numbers_of(part: &[u8]) -> Naming
    requires { Numbered part.now }
    ensures { result ≡ numbers_in part.now }
{
    let n = octet(part, 4) as usize;
    let m = octet(part, 5 + n) as usize;
    let middle = 6 + n;
    Naming {
        interface: number_of(&part[5..5 + n]),
        port: number_of(&part[middle..middle + m]),
    }
}

#[tactic(auto, using(crate::proofs::NamingLaws::naming_end, crate::proofs::NamingLaws::naming_refused))]
fn naming_from(s: &[u8], from: usize, address: [u8; 6]) -> Option<Naming>
    ensures { result ≡ first_naming address (walk (drop from s.now) 0 from).tlvs }
{
    let mut at = from;
    while let Ok(Step::Next { kind, start, len }) = step_at(s, at) {
        at = start + len;
        let part = &s[start..at];
        if sees(kind, part, address) {
            return Some(numbers_of(part));
        }
    }
    None
}

// The answer on octets that are known to be a valid LLDPDU, as those that a fit table keeps (N5): they are walked once.
pub fn rest_naming(s: &[u8], address: [u8; 6]) -> Option<Naming>
    ensures { result ≡ first_naming address (rest_of s.now).tlvs }
{
    naming_from(s, rest_place(s), address)
}

#[tactic(auto, using(crate::proofs::NamingLaws::names_refused))]
pub fn link_naming(s: &[u8], address: [u8; 6]) -> Result<Option<Naming>, Refusal>
    ensures { Names s.now address result }
{
    extent_of(s)?;
    Ok(rest_naming(s, address))
}
