// Where the first three TLVs stand, each where the one before it ends, and the IDs in the first two (L3 to L5).
// Any octets have these places, whether the TLVs are right or not. L has nine bits, so no place is far and every sum is small.
ghost use Rattle.std.specs.Prelude.{◌≡◌, ◌<◌};
ghost use Rattle.lldpdu.specs.Extent.{length_at, port_place, rest_place, id_at};

use ids::IdPart;
use octets::{len_of, octet};
use text::Part;

// L of the TLV at a place (L1).
fn length_at(s: &[u8], at: usize) -> usize
    requires { at < 1000 }
    ensures value { result ≡ length_at s.now at }
    ensures upper_bound { result < 512 }
{
    len_of(octet(s, at), octet(s, at + 1))
}

// TLV 2 behind TLV 1, TLV 3 behind TLV 2, and its four octets.
pub fn rest_place(s: &[u8]) -> usize
    ensures { result ≡ rest_place s.now }
{
    let port = 2 + length_at(s, 0);
    let seconds = port + 2 + length_at(s, port);
    seconds + 4
}

// The ID in the TLV at a place; of L the subtype takes one octet, where there is one.
fn id_at(s: &[u8], at: usize) -> IdPart
    requires { at < 1000 }
    ensures { result ≡ id_at s.now at }
{
    let len = length_at(s, at);
    IdPart {
        subtype: octet(s, at + 2),
        octets: Part {
            start: at + 3,
            len: len.saturating_sub(1),
        },
    }
}

// The chassis and the port ID (L3, L4), without a look at what stands behind them.
pub fn chassis_of(s: &[u8]) -> IdPart
    ensures { result ≡ id_at s.now 0 }
{
    id_at(s, 0)
}

pub fn port_of(s: &[u8]) -> IdPart
    ensures { result ≡ id_at s.now (port_place s.now) }
{
    id_at(s, 2 + length_at(s, 0))
}
