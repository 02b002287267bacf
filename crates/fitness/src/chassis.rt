// No chassis holds more than three on one port (N5 g): of four records one has three below it, so a place is asked how many below it are of its chassis.
// Chassis are compared only where three marks below agree with that of the place in port and last chassis octet, which are its kin.
ghost use Rattle.std.specs.Prelude.{◌≡◌, ◌<◌, length};
ghost use Rattle.numbers.specs.Sizes.{places};
ghost use Rattle.place.specs.State.{state};
ghost use Rattle.fitness.specs.Beside.{no_fourth, Asks};
ghost use Rattle.marks.specs.Marks.{few_below};

use lldpdu::chassis_of;
use loud::is_by;
use numbers::{PER_CHASSIS, Table};
use place::lldpdu_at;

// Fewer kin stand below place i than one chassis may hold. They are counted in an octet, as `numbers::held` counts.
#[tactic(auto, using(numbers::proofs::NumbersLaws::counting), unfolding(marks::specs::Marks::few_below))]
fn is_few_below(marks: &[u32], i: usize) -> bool
    requires { (i < places) × (length marks.now ≡ places) }
    ensures { result ≡ few_below marks.now i }
{
    let own = marks[i] / 65536;
    let mut n: u8 = 0;
    for j in 0..i {
        if marks[j] / 65536 == own {
            n += 1;
        }
    }
    n < PER_CHASSIS
}

// Place i, which is used, is no fourth of its chassis on its port (N13).
pub(crate) fn is_no_fourth(t: &Table, buffer: &[u8], marks: &[u32], i: usize) -> bool
    requires { Asks (state t.now buffer.now) marks.now i }
    ensures { result ≡ no_fourth (state t.now buffer.now) i }
{
    if is_few_below(marks, i) {
        return true;
    }
    let l = lldpdu_at(buffer, i, t.length[i]);
    let chassis = chassis_of(l);
    let mut n: u8 = 0;
    for j in 0..i {
        if is_by(buffer, j, t.length[j], t.port[j], t.port[i], l, chassis) {
            n += 1;
        }
    }
    n < PER_CHASSIS
}
