// The calls that take records away: Start (N6), seconds passed (N8), link lost (N9). They answer done, or a refusal.
// Start judges the buffer's length alone: the table that is handed in need not be fit.
#![tactic(auto)]

ghost use Rattle.std.specs.Prelude.{◌≡◌};
ghost use Rattle.place.specs.State.{state, empty};
ghost use Rattle.freeing.specs.Calls.{refused_outcome, Does, started, refusal_at_start};

mod change;

pub use change::{link_lost, seconds_passed};
use numbers::{PLACES, Sender, Table};
use place::OCTETS;
use refusal::Refusal;
use whole::clear;

#[derive(Clone, Copy)]
pub struct Outcome {
    pub table: Table,
    pub answer: Result<(), Refusal>,
}

// A refusal says why, and gives the table as it was (Q2).
pub(crate) fn refuse(t: Table, why: Refusal) -> Outcome
    ensures { result ≡ refused_outcome t why }
{
    Outcome {
        table: t,
        answer: Err(why),
    }
}

// A table without records; with a buffer of zeros it is what Start makes.
pub fn empty_table() -> Table
    ensures { result ≡ empty.table }
{
    Table {
        port: [0; PLACES],
        seconds: [0; PLACES],
        length: [0; PLACES],
        sender: [Sender { octets: [0; 6] }; PLACES],
    }
}

pub fn start(t: Table, buffer: &mut [u8]) -> Outcome
    ensures { Does result buffer.new (started (state t buffer.old)) (refusal_at_start (state t buffer.old)) }
{
    if buffer.len() != OCTETS {
        return refuse(t, Refusal::Unfit);
    }
    clear(buffer);
    Outcome {
        table: empty_table(),
        answer: Ok(()),
    }
}
