// One loud chassis (N13): how many records a chassis holds on a port.
// It is asked of a new record before that gets room (R13), and of a table where fitness cannot tell it by marks (N5 g).
#![tactic(auto)]

ghost use Rattle.std.specs.Prelude.{◌≡◌};
ghost use Rattle.ids.specs.Id.{id_meant};
ghost use Rattle.rules.specs.Shares.{chassis_is};
ghost use Rattle.place.specs.State.{state, lldpdu_in, record_passes, count_records};

use ids::{IdPart, same_id};
use lldpdu::chassis_of;
use numbers::{PLACES, Table};
use place::lldpdu_at;

// Whether place i, by its own length and port, has a record that was heard on port p from a chassis that is given as a part of a text.
#[tactic(auto, using(crate::proofs::ByLaws::otherwise))]
pub fn is_by(
    buffer: &[u8],
    i: usize,
    length: u16,
    origin: u8,
    p: u8,
    text: &[u8],
    chassis: IdPart,
) -> bool
    ensures { result ≡ record_passes length origin (lldpdu_in buffer.now i length) (chassis_is p (id_meant text.now chassis)) }
{
    if length == 0 || origin != p {
        return false;
    }
    let l = lldpdu_at(buffer, i, length);
    same_id(l, chassis_of(l), text, chassis)
}

// How many records a chassis holds on a port (N13). It counts in an octet, as `numbers::held` does.
pub fn chassis_held(t: Table, buffer: &[u8], p: u8, text: &[u8], chassis: IdPart) -> u8
    ensures { result ≡ count_records (state t buffer.now) (chassis_is p (id_meant text.now chassis)) }
{
    let mut n: u8 = 0;
    for i in 0..PLACES {
        if is_by(buffer, i, t.length[i], t.port[i], p, text, chassis) {
            n += 1;
        }
    }
    n
}
