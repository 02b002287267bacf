// What an LLDPDU must be: each of the first three TLVs by itself, and the TLVs behind them, to End.
// What follows End is never looked at (L8).
ghost use Rattle.std.specs.Prelude.{◌≡◌, ◌+◌, ◌≤◌, length, drop};
ghost use Rattle.walk.specs.Walk.{walk};
ghost use Rattle.lldpdu.specs.Extent.{length_at, port_place, is_chassis, is_port, seconds_ok};

use ids::{chassis_fits, port_fits};
use refusal::Refusal;
use walk::{Step, step_at};

// TLV 1 (L3), whose information string has len octets.
#[tactic(auto, using(crate::proofs::ExtentLaws::bare))]
pub(crate) fn is_chassis(s: &[u8], kind: u8, len: usize) -> bool
    requires { (len ≡ length_at s.now 0) × (2 + len ≤ length s.now) }
    ensures { result ≡ is_chassis s.now kind }
{
    kind == 1 && len != 0 && chassis_fits(s[2], &s[3..2 + len])
}

// TLV 2 (L4), which begins at a place.
#[tactic(auto, using(crate::proofs::ExtentLaws::bare))]
pub(crate) fn is_port(s: &[u8], at: usize, kind: u8, len: usize) -> bool
    requires { (at ≡ port_place s.now) × ((len ≡ length_at s.now at) × (at + 2 + len ≤ length s.now)) }
    ensures { result ≡ is_port s.now kind }
{
    kind == 2 && len != 0 && port_fits(s[at + 2], &s[at + 3..at + 2 + len])
}

// TLV 3 (L5).
pub(crate) fn seconds_fit(kind: u8, len: usize) -> bool
    ensures { result ≡ seconds_ok kind len }
{
    kind == 3 && len == 2
}

// The TLVs from a place on, to End.
#[tactic(auto, using(walk::proofs::WalkLaws::walking))]
pub fn rest_extent(s: &[u8], from: usize) -> Result<usize, Refusal>
    ensures { result ≡ (walk (drop from s.now) 0 from).extent }
{
    let mut at = from;
    loop {
        match step_at(s, at)? {
            Step::End(end) => return Ok(end),
            Step::Next { start, len, .. } => at = start + len,
        }
    }
}
