// The six calls, and the lines of their answers.
// A line has the number of the record, the answers, and the digest of what the calls left.
use crate::print::{Form, say, say_answer, say_count, say_digest, say_reply, say_sight};
use crate::record::Record;
use std::io;
use table::{
    Outcome, Reception, Table, frame_on_port, how_many, link_lost, seconds_passed, start, who_sees,
};

fn done(rt: &impl Print, o: Outcome) -> io::Result<Table> {
    say_answer(rt, o.answer)?;
    Ok(o.table)
}

fn heard(rt: &impl Print, o: Reception) -> io::Result<Table> {
    say_reply(rt, o.reply)?;
    Ok(o.table)
}

// The call of a kind from 0 to 5. The number of the record is the port, or the start for who sees an address.
fn call(
    rt: &impl Print,
    kind: u8,
    r: Record,
    t: Table,
    buffer: &mut [u8],
    frame: &[u8],
) -> io::Result<Table> {
    match kind {
        0 => done(rt, start(t, buffer)),
        1 => heard(rt, frame_on_port(t, buffer, r.number, frame)),
        2 => done(rt, seconds_passed(t, buffer, r.value)),
        3 => done(rt, link_lost(t, buffer, r.number)),
        4 => {
            say_count(rt, how_many(t, buffer, r.number))?;
            Ok(t)
        }
        _ => {
            say_sight(rt, who_sees(t, buffer, r.address, r.number))?;
            Ok(t)
        }
    }
}

// The five calls that refuse a table that is not fit (R1).
fn call_five(
    rt: &impl Print,
    r: Record,
    t: Table,
    buffer: &mut [u8],
    frame: &[u8],
) -> io::Result<Table> {
    let mut u = t;
    for kind in 1..6 {
        u = call(rt, kind, r, u, buffer, frame)?;
    }
    say_digest(rt, u, buffer)?;
    Ok(u)
}

fn call_one(
    rt: &impl Print,
    kind: u8,
    r: Record,
    t: Table,
    buffer: &mut [u8],
    frame: &[u8],
) -> io::Result<Table> {
    let u = call(rt, kind, r, t, buffer, frame)?;
    say_digest(rt, u, buffer)?;
    say(rt, Form::End, &[])?;
    Ok(u)
}

// A spoiled table (14) gets all six calls in one line, Start last, since it mends what is spoiled (N6).
pub(crate) fn answer(
    rt: &impl Print,
    case: usize,
    r: Record,
    t: Table,
    buffer: &mut [u8],
    frame: &[u8],
) -> io::Result<Table> {
    if r.kind < 6 {
        say(rt, Form::Call, &[case])?;
        return call_one(rt, r.kind, r, t, buffer, frame);
    }
    say(rt, Form::Spoiled, &[case])?;
    let five = call_five(rt, r, t, buffer, frame)?;
    call_one(rt, 0, r, five, buffer, frame)
}
