// Seconds passed (N8) and a lost link (N9): both change each record by itself, so one loop serves both.
// What happens to a record is one case of the enum.
ghost use Rattle.std.specs.Prelude.{◌≡◌, true, ◌++◌, ◌+◌, ◌*◌, ◌≤◌, ◌<◌, length, take, drop, replicate};
ghost use Rattle.numbers.specs.Sizes.{places};
ghost use Rattle.place.specs.State.{size, octets, state, each};
ghost use Rattle.fitness.specs.Fit.{fit};
ghost use Rattle.freeing.specs.Changes.{fate_of, changed};
ghost use Rattle.fitness.specs.Refusals.{refusal_when_unfit, refusal_on_port};
ghost use Rattle.freeing.specs.Calls.{Does, passed, link_lost};

use crate::{Outcome, refuse};
use fitness::is_fit;
use numbers::{PLACES, PORTS, Sender, Table};
use place::SIZE;
use refusal::Refusal;
use whole::clear;

#[derive(Clone, Copy)]
pub(crate) enum Change {
    Age(u16),
    Lose(u8),
}

// What becomes of a place, by its own numbers: it stays with so many seconds left, or goes. A free place stays as it is.
fn fate_of(change: Change, n: u16, p: u8, left: u16) -> Option<u16>
    ensures { result ≡ fate_of change n p left }
{
    if n == 0 {
        return Some(left);
    }
    match change {
        Change::Age(seconds) if left <= seconds => None,
        Change::Age(seconds) => Some(left - seconds),
        Change::Lose(q) if p == q => None,
        Change::Lose(_) => Some(left),
    }
}

// The octets of the record that place i keeps become 0. Behind them a fit table has zeros (N5), so that the place has zeros alone (N4).
fn clear_record(buffer: &mut [u8], i: usize, kept: u16)
    requires { (i < places) × ((length buffer.old ≡ octets) × (kept ≤ size)) }
    ensures { buffer.new ≡ take (i * size) buffer.old ++ (replicate kept 0 ++ drop (i * size + kept) buffer.old) }
{
    let from = i * SIZE;
    let to = from + kept as usize;
    clear(&mut buffer[from..to]);
}

// A place that goes is freed here: a call that takes the table and gives it back would copy it each time.
// Places are counted, since a place is an entry in each of four arrays and a part of the buffer.
fn change_all(t: Table, buffer: &mut [u8], change: Change) -> Table
    requires { fit (state t buffer.old) ≡ true }
    ensures { state result buffer.new ≡ each (changed change) places (state t buffer.old) }
{
    let mut u = t;
    let nobody = Sender { octets: [0; 6] };
    for i in 0..PLACES {
        match fate_of(change, u.length[i], u.port[i], u.seconds[i]) {
            Some(left) => u.seconds[i] = left,
            None => {
                clear_record(buffer, i, u.length[i]);
                u.port[i] = 0;
                u.seconds[i] = 0;
                u.length[i] = 0;
                u.sender[i] = nobody;
            }
        }
    }
    u
}

pub fn seconds_passed(t: Table, buffer: &mut [u8], seconds: u16) -> Outcome
    ensures { Does result buffer.new (passed seconds (state t buffer.old)) (refusal_when_unfit (state t buffer.old)) }
{
    if !is_fit(t, buffer) {
        return refuse(t, Refusal::Unfit);
    }
    Outcome {
        table: change_all(t, buffer, Change::Age(seconds)),
        answer: Ok(()),
    }
}

pub fn link_lost(t: Table, buffer: &mut [u8], port: usize) -> Outcome
    ensures { Does result buffer.new (link_lost port (state t buffer.old)) (refusal_on_port port (state t buffer.old)) }
{
    if !is_fit(t, buffer) {
        return refuse(t, Refusal::Unfit);
    }
    if port >= PORTS {
        return refuse(t, Refusal::NoPort);
    }
    Outcome {
        table: change_all(t, buffer, Change::Lose(port as u8)),
        answer: Ok(()),
    }
}
