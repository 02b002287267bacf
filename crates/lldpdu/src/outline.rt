// The outline of an LLDPDU: validity, identity and seconds, without the fields behind them.
// TLVs are judged front to back (Q1). A refusal is its name and nothing else (Q2).
ghost use Rattle.std.specs.Prelude.{◌≡◌, ◌+◌, ◌≤◌, length};
ghost use Rattle.lldpdu.specs.Extent.{seconds_place, extent_of};
ghost use Rattle.lldpdu.specs.Leading.{front_of};
ghost use Rattle.lldpdu.specs.Outline.{outline_in, outline_at, outline_of};

use crate::extent::rest_extent;
use crate::leading::leading_of;
use crate::places::{chassis_of, port_of};
use ids::IdPart;
use octets::pair;
use refusal::Refusal;

// The number of octets is that through End; in outline_front it is the place behind the first three TLVs.
#[derive(Clone, Copy)]
pub struct Outline {
    pub octets: usize,
    pub chassis: IdPart,
    pub port: IdPart,
    pub seconds: u16,
}

// What the outline says behind a right front, with TLV 3 at a place (L5).
fn outlined(s: &[u8], at: usize, octets: usize) -> Outline
    requires { (at ≡ seconds_place s.now) × (at + 4 ≤ length s.now) }
    ensures { result ≡ outline_in octets s.now }
{
    Outline {
        octets,
        chassis: chassis_of(s),
        port: port_of(s),
        seconds: pair(s[at + 2], s[at + 3]),
    }
}

#[tactic(auto, using(crate::proofs::LeadingLaws::leads), unfolding(crate::specs::Outline::outline_of))]
pub fn outline_lldpdu(s: &[u8]) -> Result<Outline, Refusal>
    ensures { result ≡ outline_of s.now }
{
    let at = leading_of(s)?.seconds;
    let octets = rest_extent(s, at + 4)?;
    Ok(outlined(s, at, octets))
}

// The outline as far as the first three TLVs give it. Its octets are those before the rest, and who reads the rest goes on from there.
#[tactic(auto, using(crate::proofs::LeadingLaws::leads))]
pub fn outline_front(s: &[u8]) -> Result<Outline, Refusal>
    ensures { result ≡ outline_at (front_of s.now) s.now }
{
    let at = leading_of(s)?.seconds;
    Ok(outlined(s, at, at + 4))
}

// The extent alone: refusal 4, 5 or 6, or the number of octets through the End TLV.
#[tactic(auto, using(crate::proofs::LeadingLaws::leads))]
pub fn extent_of(s: &[u8]) -> Result<usize, Refusal>
    ensures { result ≡ extent_of s.now }
{
    let at = leading_of(s)?.seconds;
    rest_extent(s, at + 4)
}
