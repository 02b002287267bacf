// What a record does to a table, to the store that its buffer is lent from, and to the octets that were kept of the store.
// A record is a call (kinds 0 to 5), a preparation without a word (6 to 13), or a spoiled table (14).
use crate::answers::answer;
use crate::record::Record;
use place::SIZE;
use std::io;
use table::{OCTETS, PLACES, Sender, Table};
use whole::fill;

fn put(store: &mut [u8], at: usize, b: u8) {
    if let Some(octet) = store.get_mut(at) {
        *octet = b;
    }
}

fn copy_place(t: Table, store: &mut [u8], from: usize, to: usize) -> Table {
    if from >= PLACES || to >= PLACES || store.len() < OCTETS {
        return t;
    }
    store.copy_within(from * SIZE..from * SIZE + SIZE, to * SIZE);
    let mut u = t;
    u.port[to] = t.port[from];
    u.seconds[to] = t.seconds[from];
    u.length[to] = t.length[from];
    u.sender[to] = t.sender[from];
    u
}

// A number of a place becomes another one: port (7), seconds left (8) or length (9).
fn set_number(t: Table, kind: u8, place: usize, value: u16) -> Table {
    if place >= PLACES {
        return t;
    }
    let mut u = t;
    match kind {
        7 => u.port[place] = (value % 256) as u8,
        8 => u.seconds[place] = value,
        _ => u.length[place] = value,
    }
    u
}

// The sender of a place becomes another one (10).
fn set_sender(t: Table, place: usize, sender: [u8; 6]) -> Table {
    if place >= PLACES {
        return t;
    }
    let mut u = t;
    u.sender[place] = Sender { octets: sender };
    u
}

// A number (7 to 9), a sender (10) or an octet (11) becomes another one, or a place is copied (12).
fn spoil(r: Record, t: Table, store: &mut [u8]) -> Table {
    match r.kind {
        7..=9 => set_number(t, r.kind, r.number, r.value),
        10 => set_sender(t, r.number, r.address),
        11 => {
            put(store, r.number, (r.value % 256) as u8);
            t
        }
        _ => copy_place(t, store, r.number, r.value as usize),
    }
}

// The calls have the front of the store for a buffer, where the store is that long.
fn run_calls(
    rt: &impl Print,
    case: usize,
    r: Record,
    t: Table,
    lent: usize,
    frame: &[u8],
    store: &mut [u8],
) -> io::Result<Table> {
    match store.get_mut(..lent) {
        Some(buffer) => answer(rt, case, r, t, buffer, frame),
        None => Ok(t),
    }
}

// What a record does to the table and to the store. Kind 13 keeps the store, and kind 14 takes it back.
pub(crate) fn run(
    rt: &impl Print,
    case: usize,
    r: Record,
    t: Table,
    lent: usize,
    frame: &[u8],
    store: &mut [u8],
    kept: &mut [u8],
) -> io::Result<Table> {
    match r.kind {
        6 => Ok(t),
        7..=12 => Ok(spoil(r, t, store)),
        13 => {
            fill(kept, store);
            Ok(t)
        }
        14 => {
            let u = run_calls(rt, case, r, t, lent, frame, store)?;
            fill(store, kept);
            Ok(u)
        }
        _ => run_calls(rt, case, r, t, lent, frame, store),
    }
}

// How many octets of the store the next call has for a buffer: kind 6 says another number.
pub(crate) fn lent_behind(r: Record, lent: usize) -> usize {
    match r.kind {
        6 => r.number,
        14 => OCTETS,
        _ => lent,
    }
}
