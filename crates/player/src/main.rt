// player: replays a capture and prints what the table then holds (J3), or replays it up to two limits and prints what changed between the two tables (J4).
// Its arguments are the capture (`-` is standard input), the port, the limit in frames (any word that is no number: all), for progress the word `progress` (any other: none), and the second limit, where there is one.
#![tactic(auto)]

mod entries;
mod failures;
mod show;

use arguments::number_in;
use entries::show_changes;
use failures::fail;
use play::{Look, Played, play};
use show::show_table;
use std::env::{Env, FillError};
use std::fs::File;
use std::io::Read;
use std::rt::Files;
use std::{io, str};
use table::{OCTETS, empty_table, start};
use whole::same;

// More octets than the longest name of a file.
const WORD: usize = 4096;

// The octets of a table's buffer. They are a call's result so that no proof has to count them.
fn table_buffer() -> [u8; OCTETS] {
    [0; OCTETS]
}

// Room for a word.
fn word_room() -> [u8; WORD] {
    [0; WORD]
}

// The word at a place, put into the room. One that is not there or is too long is an empty one.
fn word_at<'a>(rt: &impl Env, i: usize, room: &'a mut [u8]) -> &'a [u8] {
    match rt.arg(i, room) {
        Ok(n) => &room[..n],
        Err(_) => &room[..0],
    }
}

fn number_at(rt: &impl Env, i: usize) -> usize {
    number_in(word_at(rt, i, &mut word_room()))
}

fn wants_progress(rt: &impl Env, i: usize) -> bool {
    same(word_at(rt, i, &mut word_room()), b"progress")
}

// Where there is a fifth word there are two looks.
fn is_compared(rt: &impl Env) -> bool {
    !matches!(rt.arg(5, &mut word_room()), Err(FillError::NotPresent))
}

// A look from a new table on.
fn new_look(buffer: &mut [u8], limit: usize) -> Look {
    Look {
        table: start(empty_table(), buffer).table,
        limit,
    }
}

// A second look that is not wanted stops behind the file header (C6).
fn second_limit(rt: &impl Env) -> usize {
    if is_compared(rt) { number_at(rt, 5) } else { 0 }
}

// From the first octet of the open file to the last; each look has a buffer for its table.
fn play_all(
    rt: &(impl Env + Eprint),
    file: &mut impl Read,
    before: &mut [u8],
    after: &mut [u8],
) -> Played {
    let first = new_look(before, number_at(rt, 3));
    let second = new_look(after, second_limit(rt));
    play(
        rt,
        file,
        number_at(rt, 2),
        first,
        before,
        second,
        after,
        wants_progress(rt, 4),
    )
}

fn show_played(rt: &(impl Env + Print), p: Played, before: &[u8], after: &[u8]) -> io::Result<()> {
    if is_compared(rt) {
        return show_changes(rt, p.first, before, p.second, after);
    }
    show_table(rt, p.first, before)
}

// The lines, or what failed. A pipe that nobody reads any more is no failure (J3).
fn tell(rt: &(impl Env + Files + Print + Eprint), p: Played, before: &[u8], after: &[u8]) {
    if !p.is_read {
        fail(rt, "the capture cannot be read\n");
        return;
    }
    if let Err(e) = show_played(rt, p, before, after) {
        if e.kind() != io::ErrorKind::BrokenPipe {
            fail(rt, "standard output cannot be written\n");
        }
    }
}

fn run(rt: &(impl Env + Files + Print + Eprint), file: &mut impl Read) {
    let mut before = table_buffer();
    let mut after = table_buffer();
    let p = play_all(rt, file, &mut before, &mut after);
    tell(rt, p, &before, &after);
}

// The file with a name. The system's names are octets, and std opens those that are UTF-8.
fn run_named(rt: &(impl Env + Files + Print + Eprint), name: &[u8]) {
    let opened = match str::from_utf8(name) {
        Ok(name) => File::open(rt, name).ok(),
        Err(_) => None,
    };
    match opened {
        Some(mut file) => run(rt, &mut file),
        None => fail(rt, "the capture cannot be opened\n"),
    }
}

fn main(rt: HostRuntime) {
    let mut room = word_room();
    let name = word_at(&rt, 1, &mut room);
    if same(name, b"-") {
        run(&rt, &mut rt.stdin());
    } else {
        run_named(&rt, name);
    }
}
