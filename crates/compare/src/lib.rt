// What changed between two looks at a table (D1 to D4): each change once, as entries of two octets at the front of a lent list.
// The second table's buffer is `buffer2`. Neither table is written, and nothing is put into the list before it is known to be long enough (Q2).
#![tactic(auto)]

ghost use Rattle.std.specs.Prelude.{◌≡◌, ◌<◌, [], ◌∷◌};
ghost use Rattle.tally.specs.Tests.{both};
ghost use Rattle.octets.specs.Address.{same_octets};
ghost use Rattle.output.specs.Output.{output_at, puts, Put};
ghost use Rattle.numbers.specs.Sizes.{places};
ghost use Rattle.place.specs.State.{state, whose_in, find, place_found};
ghost use Rattle.changes.specs.Entries.{entry, octets_of};
ghost use Rattle.compare.specs.Compare.{first_gives, second_gives, entries_between, number_of, Compares};

use fitness::is_fit;
use lldpdu::{chassis_of, port_of};
use numbers::{PLACES, Table};
use octets::same_six;
use output::{Output, put_all};
use place::{lldpdu_at, place_of};
use refusal::Refusal;
use text::{Part, text_of};
use whole::same;

// The kinds of an entry (D1).
#[derive(Clone, Copy, Debug, PartialEq, Eq)]
pub enum Kind {
    Left = 1,
    Joined,
    Seconds,
    Altered,
}

impl From<Kind> for u8 {
    ghost from_gives = { λ k n. n ≡ number_of k };

    fn from(k: Kind) -> u8 {
        k as u8
    }
}

// The octets of an entry (D3), and of the longest list: one entry for each place of both tables (D4).
pub const ENTRY: usize = 2;

pub const LONGEST: usize = 2 * PLACES * ENTRY;

// The kind, then the place (D3).
fn put_entry(out: &mut Output, kind: Kind, place: usize)
    requires { place < places }
    ensures { Put (octets_of (entry (number_of kind) place ∷ [])) out.old out.new }
{
    out.put_octet(u8::from(kind));
    out.put_octet(place as u8);
}

// The place of a record with the identity of an LLDPDU that was heard on port p, where there is one (N2).
fn place_in(t: &Table, buffer: &[u8], p: u8, l: &[u8]) -> Option<usize>
    ensures { result ≡ place_found (find (state t.now buffer.now) (whose_in p l.now)) }
{
    place_of(*t, buffer, p, l, chassis_of(l), port_of(l))
}

// Whether two records of one identity have the same octets and the same sender.
fn is_unaltered(l: &[u8], sender: [u8; 6], m: &[u8], other: [u8; 6]) -> bool
    ensures { result ≡ both (same_octets l.now m.now) (same_octets sender other) }
{
    same(l, m) && same_six(sender, other)
}

// What became of the record in place i of the first table: it left, it was altered, or its seconds alone are others.
fn put_first(
    out: &mut Output,
    first: &Table,
    buffer: &[u8],
    second: &Table,
    buffer2: &[u8],
    i: usize,
)
    requires { i < places }
    ensures { Put (octets_of (first_gives (state first.now buffer.now) (state second.now buffer2.now) i)) out.old out.new }
{
    let kept = first.length[i];
    if kept == 0 {
        return;
    }
    let l = lldpdu_at(buffer, i, kept);
    let Some(k) = place_in(second, buffer2, first.port[i], l) else {
        return put_entry(out, Kind::Left, i);
    };
    let m = lldpdu_at(buffer2, k, second.length[k]);
    if !is_unaltered(l, first.sender[i].octets, m, second.sender[k].octets) {
        put_entry(out, Kind::Altered, k)
    } else if first.seconds[i] != second.seconds[k] {
        put_entry(out, Kind::Seconds, k)
    }
}

// Whether the record in place k of the second table joined: the first does not know it.
fn put_second(
    out: &mut Output,
    first: &Table,
    buffer: &[u8],
    second: &Table,
    buffer2: &[u8],
    k: usize,
)
    requires { k < places }
    ensures { Put (octets_of (second_gives (state first.now buffer.now) (state second.now buffer2.now) k)) out.old out.new }
{
    let kept = second.length[k];
    if kept == 0 {
        return;
    }
    let l = lldpdu_at(buffer2, k, kept);
    match place_in(first, buffer, second.port[k], l) {
        Some(_) => {}
        None => put_entry(out, Kind::Joined, k),
    }
}

// The first table's records, then those that joined (D2).
fn put_entries(out: &mut Output, first: &Table, buffer: &[u8], second: &Table, buffer2: &[u8])
    ensures { Put (octets_of (entries_between (state first.now buffer.now) (state second.now buffer2.now))) out.old out.new }
{
    for i in 0..PLACES {
        put_first(out, first, buffer, second, buffer2, i);
    }
    for k in 0..PLACES {
        put_second(out, first, buffer, second, buffer2, k);
    }
}

// The same in a room of its own; how many octets they are, where they have room.
fn entries_in(
    room: &mut [u8],
    first: &Table,
    buffer: &[u8],
    second: &Table,
    buffer2: &[u8],
) -> usize
    ensures { output_at room.new result ≡ puts (octets_of (entries_between (state first.now buffer.now) (state second.now buffer2.now))) (output_at room.old 0) }
{
    let mut out = Output::new(room);
    put_entries(&mut out, first, buffer, second, buffer2);
    out.end()
}

// All entries are put together first, so that the list gets all or none (D4).
pub fn compare(
    first: Table,
    buffer: &[u8],
    second: Table,
    buffer2: &[u8],
    list: &mut [u8],
) -> Result<usize, Refusal>
    ensures { Compares (state first buffer.now) (state second buffer2.now) list.old result list.new }
{
    if !is_fit(first, buffer) || !is_fit(second, buffer2) {
        return Err(Refusal::Unfit);
    }
    let mut entries = [0u8; LONGEST];
    let n = entries_in(&mut entries, &first, buffer, &second, buffer2);
    if list.len() < n {
        return Err(Refusal::TooShort);
    }
    // put_all and text_of ask for no bound of n; copy_from_slice would, and put_entries would have to promise it.
    put_all(list, 0, text_of(&entries, Part { start: 0, len: n }));
    Ok(n / ENTRY)
}
