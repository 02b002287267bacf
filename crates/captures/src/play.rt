// One capture, replayed in pieces of one size (C9), into a table that may be spoiled between two of them.
// A piece is fed whether the replay wants more or not.
ghost use Rattle.std.specs.Prelude.{◌≤◌, ◌<◌};

use crate::case::Case;
use refusal::Refusal;
use replay::{Fed, begin, feed, finish};
use table::Table;

#[derive(Clone, Copy)]
pub(crate) struct Played {
    pub(crate) answer: Result<usize, Refusal>,
    pub(crate) table: Table,
}

// The last octet of the table's buffer becomes 1 where as many octets have been fed as the case says.
fn spoil_at(buffer: &mut [u8], spoil: usize, fed: usize) {
    if spoil == fed {
        if let Some(last) = buffer.last_mut() {
            *last = 1;
        }
    }
}

// Where the piece ends that begins at an octet, by its size alone; one of size 0 is all that is left.
fn sized_end(at: usize, size: usize, length: usize) -> usize
    requires { at < length }
    ensures { (at < result) × (result ≤ length) }
{
    if size == 0 {
        return length;
    }
    at + size.min(length - at)
}

// A piece also ends where the table is to be spoiled.
fn piece_end(at: usize, size: usize, spoil: usize, length: usize) -> usize
    requires { at < length }
    ensures { (at < result) × (result ≤ length) }
{
    let end = sized_end(at, size, length);
    if at < spoil { end.min(spoil) } else { end }
}

pub(crate) fn play(
    c: Case,
    size: usize,
    capture: &[u8],
    t: Table,
    buffer: &mut [u8],
    room: &mut [u8],
) -> Played {
    let mut q = Fed {
        replay: begin(t, buffer, c.port, c.limit),
        table: t,
    };
    spoil_at(buffer, c.spoil, 0);
    let mut at = 0;
    while at < capture.len() {
        let end = piece_end(at, size, c.spoil, capture.len());
        q = feed(q.replay, q.table, buffer, room, &capture[at..end]);
        spoil_at(buffer, c.spoil, end);
        at = end;
    }
    Played {
        answer: finish(q.replay),
        table: q.table,
    }
}
