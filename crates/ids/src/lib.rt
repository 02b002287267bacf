// The ID of a chassis or of a port: a subtype, and octets that are a part of a text (L3, L4).
// One shape serves both, wherever an ID is judged or compared; any text and any part get an answer.
#![tactic(auto)]

ghost use Rattle.std.specs.Prelude.{◌≡◌, length, get_or};
ghost use Rattle.tally.specs.Tests.{all};
ghost use Rattle.tally.specs.Ranges.{all_below};
ghost use Rattle.ids.specs.Id.{id, id_meant, address_ok, digit_ok, local_rules, chassis_ok, port_ok, same_id};

use text::{Part, text_of};
use whole::same;

#[derive(Clone, Copy)]
pub struct IdPart {
    pub subtype: u8,
    pub octets: Part,
}

// An address of n octets.
fn is_address(n: usize) -> bool
    ensures { result ≡ address_ok n }
{
    matches!(n, 6 | 8)
}

// A character of a local address: 0 to 9, A to F.
fn is_digit(b: u8) -> bool
    ensures { result ≡ digit_ok b }
{
    matches!(b, b'0'..=b'9' | b'A'..=b'F')
}

fn all_digits(octets: &[u8]) -> bool
    ensures { result ≡ all_below (λ i. digit_ok (get_or octets.now i 0)) (length octets.now) }
{
    octets.iter().all(|&b| is_digit(b))
}

// 1 to 32 pairs of these characters.
fn is_local(octets: &[u8]) -> bool
    ensures { result ≡ all (local_rules octets.now) }
{
    let n = octets.len();
    matches!(n, 2..=64) && n % 2 == 0 && all_digits(octets)
}

// The chassis (L3): an address, or a local one.
#[tactic(auto, unfolding(crate::specs::Id::chassis_ok))]
pub fn chassis_fits(subtype: u8, octets: &[u8]) -> bool
    ensures { result ≡ chassis_ok (id subtype octets.now) }
{
    match subtype {
        4 => is_address(octets.len()),
        7 => is_local(octets),
        _ => false,
    }
}

// The port ID (L4).
#[tactic(auto, unfolding(crate::specs::Id::port_ok))]
pub fn port_fits(subtype: u8, octets: &[u8]) -> bool
    ensures { result ≡ port_ok (id subtype octets.now) }
{
    matches!(subtype, 1..=7) && matches!(octets.len(), 1..=255)
}

// Whether an ID in one text and an ID in another are the same (N2).
#[tactic(auto, unfolding(crate::specs::Id::same_id))]
pub fn same_id(text: &[u8], a: IdPart, other: &[u8], b: IdPart) -> bool
    ensures { result ≡ same_id (id_meant text.now a) (id_meant other.now b) }
{
    a.subtype == b.subtype && same(text_of(text, a.octets), text_of(other, b.octets))
}
