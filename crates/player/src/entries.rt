// What changed between two looks (J4): a line for each entry of the list that compare gives, or the refusal.
// The buffers of the first and of the second table are `before` and `after`.
ghost use Rattle.std.specs.Prelude.{◌<◌};
ghost use Rattle.numbers.specs.Sizes.{places};

use crate::show::{LINE, put_neighbour, say_refusal};
use compare::{ENTRY, Kind, LONGEST};
use forms::put_form;
use lldpdu::{chassis_of, port_of};
use numbers::{PLACES, Table};
use octets::octet;
use output::Output;
use place::{lldpdu_at, place_of};
use play::{Seen, between};
use std::io;

// No list has more entries (D4).
const MOST: usize = LONGEST / ENTRY;

// The seconds left of the record with the identity of an LLDPDU that was heard on port p (N2). There are none exactly if they are 0 (N5).
fn seconds_in(t: Table, buffer: &[u8], p: u8, l: &[u8]) -> u16 {
    match place_of(t, buffer, p, l, chassis_of(l), port_of(l)) {
        Some(i) => t.seconds[i],
        None => 0,
    }
}

fn put_seconds(line: &mut Output, seconds: u16) {
    let forms = b"- |# ";
    let which = if seconds == 0 { 1 } else { 2 };
    put_form(line, forms, which, &[seconds as usize], forms);
}

// The record in place i of its table, with its seconds in the first and in the second. The words are in the order of the kinds (D1).
fn show_change(
    rt: &impl Print,
    kind: u8,
    t: Table,
    buffer: &[u8],
    i: usize,
    was: u16,
    is: u16,
) -> io::Result<()>
    requires { i < places }
{
    let mut room = [0u8; LINE];
    let mut line = Output::new(&mut room);
    let words = b"left # |joined # |seconds # |altered # ";
    put_form(
        &mut line,
        words,
        kind as usize,
        &[t.port[i] as usize],
        words,
    );
    put_seconds(&mut line, was);
    put_seconds(&mut line, is);
    put_neighbour(&mut line, t, buffer, i);
    rt.write_all(line.front())
}

// An entry names a place of the first table where its record left, and else of the second (D1).
fn show_entry(
    rt: &impl Print,
    kind: u8,
    i: usize,
    first: Table,
    before: &[u8],
    second: Table,
    after: &[u8],
) -> io::Result<()> {
    if i >= PLACES {
        return Ok(());
    }
    if kind == u8::from(Kind::Left) {
        return show_change(rt, kind, first, before, i, first.seconds[i], 0);
    }
    let l = lldpdu_at(after, i, second.length[i]);
    let was = seconds_in(first, before, second.port[i], l);
    show_change(rt, kind, second, after, i, was, second.seconds[i])
}

fn show_entries(
    rt: &impl Print,
    n: usize,
    list: &[u8],
    first: Table,
    before: &[u8],
    second: Table,
    after: &[u8],
) -> io::Result<()> {
    for k in 0..n.min(MOST) {
        let kind = octet(list, k * ENTRY);
        let place = octet(list, k * ENTRY + 1) as usize;
        show_entry(rt, kind, place, first, before, second, after)?;
    }
    Ok(())
}

// Two looks.
pub(crate) fn show_changes(
    rt: &impl Print,
    first: Seen,
    before: &[u8],
    second: Seen,
    after: &[u8],
) -> io::Result<()> {
    let mut list = [0u8; LONGEST];
    match between(first, before, second, after, &mut list) {
        Ok(n) => show_entries(rt, n, &list, first.table, before, second.table, after),
        Err(refusal) => say_refusal(rt, refusal),
    }
}
