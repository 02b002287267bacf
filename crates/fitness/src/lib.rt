// Whether a table is fit (N5): buffer length, shares, every place by itself, no identity twice, no chassis above three on a port; in the order of their cost.
// Any table and any buffer get an answer.
#![tactic(auto)]

ghost use Rattle.std.specs.Prelude.{◌≡◌};
ghost use Rattle.place.specs.State.{state};
ghost use Rattle.fitness.specs.Fit.{fit};

mod beside;
mod chassis;
mod single;

use beside::all_fit_in;
use marks::marks_of;
use numbers::{Table, shares_fit};
use place::OCTETS;

#[tactic(auto, using(crate::proofs::FitLaws::unfit))]
pub fn is_fit(t: Table, buffer: &[u8]) -> bool
    ensures { result ≡ fit (state t buffer.now) }
{
    if buffer.len() != OCTETS || !shares_fit(t) {
        return false;
    }
    let Some(marks) = marks_of(t, buffer) else {
        return false;
    };
    all_fit_in(&t, buffer, &marks)
}
