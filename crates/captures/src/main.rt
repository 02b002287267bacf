// captures: replays the stored captures in pieces and prints each answer with a digest, to be compared with the stored output.
// The output was made by the independent program in twin/; nothing of it comes from this one.
#![tactic(auto)]

mod case;
mod play;

use arguments::number_in;
use case::{Case, HEAD, case_at};
use digest::digest_of;
use forms::put_form;
use input::{read_file, split_behind, zeros};
use output::Output;
use play::{Played, play};
use std::env::{Env, FillError};
use std::io;
use table::{OCTETS, Table, empty_table, start};
use text::{Part, text_of};

// More octets than the file has.
const FILE: usize = 1400000;

// The longest record buffer that a case can name, so that one can be too long.
const STORE: usize = 65535;

// More than the longest line.
const LINE: usize = 128;

// Room for an argument.
const WORD: usize = 4096;

// A form's number is its place among the forms below.
#[derive(Clone, Copy)]
enum Form {
    Handed = 1,
    Refused,
}

const FORMS: &[u8] = b"# # handed # #\n|# # refused # #\n";

// The number of the case, the size of its pieces, the answer, and the digest of what the replay left.
fn say(rt: &impl Print, case: usize, size: usize, p: Played, buffer: &[u8]) -> io::Result<()> {
    let (form, n) = match p.answer {
        Ok(n) => (Form::Handed, n),
        Err(refusal) => (Form::Refused, refusal as usize),
    };
    let values = [case, size, n, digest_of(p.table, buffer) as usize];
    let mut room = [0u8; LINE];
    let mut line = Output::new(&mut room);
    put_form(&mut line, FORMS, form as usize, &values, FORMS);
    rt.write_all(line.front())
}

// The table that a case has: a new one, or that which the case before left.
fn table_for(c: Case, t: Table, buffer: &mut [u8]) -> Table {
    if c.goes_on { t } else { start(t, buffer).table }
}

// The record buffer is the front of the store, which is long enough for every case.
fn run(
    rt: &impl Print,
    case: usize,
    size: usize,
    c: Case,
    capture: &[u8],
    t: Table,
    buffer: &mut [u8],
    store: &mut [u8],
) -> io::Result<Table> {
    let Some(room) = store.get_mut(..c.room) else {
        return Ok(t);
    };
    let u = table_for(c, t, buffer);
    let p = play(c, size, capture, u, buffer, room);
    say(rt, case, size, p, buffer)?;
    Ok(p.table)
}

// All cases in pieces of one size, from a newly started table on.
fn run_all(
    rt: &impl Print,
    file: &[u8],
    size: usize,
    buffer: &mut [u8],
    store: &mut [u8],
) -> io::Result<()> {
    let mut t = start(empty_table(), buffer).table;
    let mut rest = file;
    for case in 1.. {
        if rest.is_empty() {
            break;
        }
        let c = case_at(rest);
        let (capture, behind) = split_behind(rest, HEAD, c.length);
        t = run(rt, case, size, c, capture, t, buffer, store)?;
        rest = behind;
    }
    Ok(())
}

// Each argument is one size; 0 is the whole capture in one piece. One that there is no room for is as an empty one.
fn run_arguments(
    rt: &(impl Env + Print),
    file: &[u8],
    buffer: &mut [u8],
    store: &mut [u8],
) -> io::Result<()> {
    for i in 1.. {
        let mut word = [0u8; WORD];
        let n = match rt.arg(i, &mut word) {
            Ok(n) => n,
            Err(FillError::TooLong) => 0,
            Err(FillError::NotPresent) => break,
        };
        run_all(rt, file, number_in(&word[..n]), buffer, store)?;
    }
    Ok(())
}

fn main(rt: HostRuntime) -> io::Result<()> {
    let mut file = zeros::<FILE>();
    let Some(n) = read_file(&rt, "captures", &mut file)? else {
        return Ok(());
    };
    let mut buffer = zeros::<OCTETS>();
    let mut store = zeros::<STORE>();
    run_arguments(&rt, &file[..n], &mut buffer, &mut store)
}
