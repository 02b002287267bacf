// Two tables beside each other, each with a store that its buffer is lent from, and what a record does to them. It puts something into one (kinds 1 to 3),
// compares the two, one way round or the other (4, 5), lets one hear a frame (6), or makes one a copy of the other (7).
use crate::print::{say, say_reply};
use crate::record::Record;
use compare::compare;
use place::store as store_record;
use std::io;
use table::{OCTETS, Table, empty_table, frame_on_port};
use text::{Part, text_of};
use whole::fill;

// Octets that a buffer is lent from: more than a table needs, so that a buffer can be too long.
pub(crate) const STORE: usize = OCTETS + 2000;

// More than the longest list of a record.
const LIST: usize = 256;

// A table, and how many octets of its store are lent with it.
#[derive(Clone, Copy)]
pub(crate) struct Side {
    table: Table,
    lent: usize,
}

#[derive(Clone, Copy)]
pub(crate) struct Sides {
    first: Side,
    second: Side,
}

pub(crate) fn two_empty() -> Sides {
    let empty = Side {
        table: empty_table(),
        lent: OCTETS,
    };
    Sides {
        first: empty,
        second: empty,
    }
}

// A place gets what the record says, and keeps its LLDPDU (1).
fn placed(r: Record, t: Table, lldpdu: &[u8], store: &mut [u8]) -> Table {
    match store.get_mut(..OCTETS) {
        Some(buffer) => store_record(t, buffer, r.place, r.port, r.seconds, r.sender, lldpdu),
        None => t,
    }
}

// An octet of the store becomes another one (2).
fn put(store: &mut [u8], at: usize, b: u8) {
    if let Some(octet) = store.get_mut(at) {
        *octet = b;
    }
}

// A frame comes on a port, and the answer is printed (6). No more octets can be lent than the store has.
fn heard(
    rt: &impl Print,
    number: usize,
    r: Record,
    s: Side,
    frame: &[u8],
    store: &mut [u8],
) -> io::Result<Side> {
    let Some(buffer) = store.get_mut(..s.lent) else {
        return Ok(s);
    };
    let heard = frame_on_port(s.table, buffer, r.port as usize, frame);
    say_reply(rt, number, heard.reply)?;
    Ok(Side {
        table: heard.table,
        lent: s.lent,
    })
}

// The octets are the LLDPDU of a place or a frame.
fn prepared(
    rt: &impl Print,
    number: usize,
    r: Record,
    s: Side,
    octets: &[u8],
    store: &mut [u8],
) -> io::Result<Side> {
    match r.kind {
        1 => Ok(Side {
            table: placed(r, s.table, octets, store),
            lent: s.lent,
        }),
        2 => {
            put(store, r.length, r.port);
            Ok(s)
        }
        6 => heard(rt, number, r, s, octets, store),
        _ => Ok(Side {
            table: s.table,
            lent: r.length,
        }),
    }
}

// What the list holds before the call, so that it shows which octets were written.
fn fill_list(list: &mut [u8]) {
    for (j, octet) in list.iter_mut().enumerate() {
        *octet = (255 - j % 256) as u8;
    }
}

fn front_of(store: &[u8], lent: usize) -> &[u8] {
    text_of(
        store,
        Part {
            start: 0,
            len: lent,
        },
    )
}

// With a list of n octets.
fn compared(
    rt: &impl Print,
    number: usize,
    n: usize,
    a: Side,
    store: &[u8],
    b: Side,
    store2: &[u8],
) -> io::Result<()> {
    let mut room = [0u8; LIST];
    let Some(list) = room.get_mut(..n) else {
        return Ok(());
    };
    fill_list(list);
    let first = front_of(store, a.lent);
    let second = front_of(store2, b.lent);
    let answer = compare(a.table, first, b.table, second, list);
    say(rt, number, answer, list)
}

// A record that changes the first table (side 0) or the second.
fn changed(
    rt: &impl Print,
    number: usize,
    r: Record,
    s: Sides,
    octets: &[u8],
    store: &mut [u8],
    store2: &mut [u8],
) -> io::Result<Sides> {
    if r.side == 0 {
        return Ok(Sides {
            first: prepared(rt, number, r, s.first, octets, store)?,
            second: s.second,
        });
    }
    Ok(Sides {
        first: s.first,
        second: prepared(rt, number, r, s.second, octets, store2)?,
    })
}

// A side becomes a copy of the other one, table, store and what of it is lent (7).
fn copied(r: Record, s: Sides, store: &mut [u8], store2: &mut [u8]) -> Sides {
    if r.side == 0 {
        fill(store, store2);
        return Sides {
            first: s.second,
            second: s.second,
        };
    }
    fill(store2, store);
    Sides {
        first: s.first,
        second: s.first,
    }
}

pub(crate) fn run(
    rt: &impl Print,
    number: usize,
    r: Record,
    s: Sides,
    octets: &[u8],
    store: &mut [u8],
    store2: &mut [u8],
) -> io::Result<Sides> {
    match r.kind {
        4 => {
            compared(rt, number, r.length, s.first, store, s.second, store2)?;
            Ok(s)
        }
        5 => {
            compared(rt, number, r.length, s.second, store2, s.first, store)?;
            Ok(s)
        }
        7 => Ok(copied(r, s, store, store2)),
        _ => changed(rt, number, r, s, octets, store, store2),
    }
}
