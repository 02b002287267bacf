// The first three TLVs: whether they are as they should be, and where they begin, before anything behind them is looked at.
// They are judged front to back (Q1).
ghost use Rattle.std.specs.Prelude.{◌≡◌};
ghost use Rattle.lldpdu.specs.Leading.{leading_of};

use crate::extent::{is_chassis, is_port, seconds_fit};
use refusal::Refusal;
use walk::head_at;

// The places of TLV 2 and TLV 3, where the first three are right.
#[derive(Clone, Copy)]
pub struct Leading {
    pub port: usize,
    pub seconds: usize,
}

// A header or body that runs past the end comes before what a TLV is (Q1).
pub fn leading_of(s: &[u8]) -> Result<Leading, Refusal>
    ensures { result ≡ leading_of s.now }
{
    let chassis_head = head_at(s, 0).ok_or(Refusal::RunsPast)?;
    if !is_chassis(s, chassis_head.kind, chassis_head.len) {
        return Err(Refusal::NotAsDue);
    }
    let port = 2 + chassis_head.len;
    let port_head = head_at(s, port).ok_or(Refusal::RunsPast)?;
    if !is_port(s, port, port_head.kind, port_head.len) {
        return Err(Refusal::NotAsDue);
    }
    let seconds = port + 2 + port_head.len;
    let seconds_head = head_at(s, seconds).ok_or(Refusal::RunsPast)?;
    if !seconds_fit(seconds_head.kind, seconds_head.len) {
        return Err(Refusal::NotAsDue);
    }
    Ok(Leading { port, seconds })
}
