// Each place beside the others: no identity occurs twice, and no chassis holds more than three on a port (N5 d, g).
// Where the marks leave no question, nothing else of a place is asked.
ghost use Rattle.std.specs.Prelude.{◌≡◌, ◌<◌, length};
ghost use Rattle.tally.specs.Tests.{both};
ghost use Rattle.tally.specs.Ranges.{all_below};
ghost use Rattle.numbers.specs.Sizes.{places};
ghost use Rattle.place.specs.State.{octets, state};
ghost use Rattle.fitness.specs.Fit.{single, fits_in};
ghost use Rattle.fitness.specs.Beside.{no_fourth, Asks};
ghost use Rattle.marks.specs.Marks.{settled, Marked};

use crate::chassis::is_no_fourth;
use crate::single::is_single;
use numbers::{PER_CHASSIS, PLACES, Table};

// Of place i, of which so many octets are kept, the marks leave no question: its mark is its own, and no more agree with it in port and last chassis octet
// than one chassis may hold. All marks are looked at, since a loop of a fixed length without a way out is done many at a time.
#[tactic(auto, using(numbers::proofs::NumbersLaws::counting, crate::proofs::ChassisLaws::settling))]
fn is_settled(marks: &[u32], i: usize, kept: u16) -> bool
    requires { (i < places) × (length marks.now ≡ places) }
    ensures { result ≡ settled marks.now i kept }
{
    if kept == 0 {
        return true;
    }
    let own = marks[i];
    let front = own / 65536;
    let mut alike: u32 = 0;
    let mut kin: u32 = 0;
    for j in 0..PLACES {
        if marks[j] == own {
            alike += 1;
        }
        if marks[j] / 65536 == front {
            kin += 1;
        }
    }
    if alike > 1 {
        return false;
    }
    kin <= u32::from(PER_CHASSIS)
}

// Place i, which is used, has an identity of its own and is no fourth of its chassis.
fn fits_in(t: &Table, buffer: &[u8], marks: &[u32], i: usize) -> bool
    requires { Asks (state t.now buffer.now) marks.now i }
    ensures { result ≡ both (single (state t.now buffer.now) i) (no_fourth (state t.now buffer.now) i) }
{
    is_single(t, buffer, marks, i) && is_no_fourth(t, buffer, marks, i)
}

pub(crate) fn all_fit_in(t: &Table, buffer: &[u8], marks: &[u32]) -> bool
    requires { (length buffer.now ≡ octets) × Marked (state t.now buffer.now) marks.now }
    ensures { result ≡ all_below (fits_in (state t.now buffer.now)) places }
{
    for i in 0..PLACES {
        if !is_settled(marks, i, t.length[i]) && !fits_in(t, buffer, marks, i) {
            return false;
        }
    }
    true
}
