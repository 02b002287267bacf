// No identity occurs twice (N5 d): a place against those below it.
// Identities are compared only where their marks are equal.
ghost use Rattle.std.specs.Prelude.{◌≡◌};
ghost use Rattle.place.specs.State.{state};
ghost use Rattle.fitness.specs.Fit.{single};
ghost use Rattle.fitness.specs.Beside.{Asks};

use lldpdu::{chassis_of, port_of};
use numbers::Table;
use place::{is_of, lldpdu_at};

// No place below i has the identity of place i, which is used.
pub(crate) fn is_single(t: &Table, buffer: &[u8], marks: &[u32], i: usize) -> bool
    requires { Asks (state t.now buffer.now) marks.now i }
    ensures { result ≡ single (state t.now buffer.now) i }
{
    let l = lldpdu_at(buffer, i, t.length[i]);
    let chassis = chassis_of(l);
    let port = port_of(l);
    let mark = marks[i];
    for j in 0..i {
        if marks[j] == mark
            && is_of(
                buffer,
                j,
                t.length[j],
                t.port[j],
                t.port[i],
                l,
                chassis,
                port,
            )
        {
            return false;
        }
    }
    true
}
