// What a program reads, into a room of a fixed size: a stored file, or another input. What there is no room for is not read.
// A file that cannot be opened is no failed read: standard error says why, and the program goes on without it.
#![tactic(auto)]

ghost use Rattle.std.specs.Prelude.{◌≡◌, ◌≤◌, length, IfOk, IfSome};
ghost use Rattle.input.specs.Stored.{room_of};

mod record;

pub use record::{number_at, split_behind, wide_at};
use std::fs::File;
use std::io::{Read, Write};
use std::rt::Files;
use std::{io, str};

// More than the longest reason.
const REASON: usize = 512;

// Room for N octets. It is a call's result, so that no proof has to count them.
#[tactic(auto, unfolding(crate::specs::Stored::room_of))]
pub fn zeros<const N: usize>() -> [u8; N]
    ensures { result ≡ room_of N }
{
    [0; N]
}

// Puts the front of an input at the front of the room; how many octets that is, never more than there is room for. Which octets they are no contract can say.
pub fn read_front(input: impl Read + Drop, room: &mut [u8]) -> io::Result<usize>
    ensures { IfOk result (λ n. n ≤ length room.old) }
{
    let most = room.len();
    let mut rest = room;
    let n = io::copy(&mut input.take(most as u64), &mut rest)?;
    Ok((n as usize).min(most))
}

// Why a file could not be opened, in the system's words, and without its number for them.
fn say_unopened(rt: &impl Eprint, name: &str, error: io::Error) -> io::Result<()> {
    let mut room = [0u8; REASON];
    let mut rest = &mut room[..];
    write!(rest, "{error}")?;
    let n = REASON.saturating_sub(rest.len());
    let reason = str::from_utf8(&room[..n]).unwrap_or("");
    let words = reason
        .split_once(" (os error ")
        .map_or(reason, |(words, _)| words);
    eprintln!(rt; "{name}: {words}")
}

// The file with a name, as `read_front` reads an input; nothing where it cannot be opened.
pub fn read_file<R: Files + Eprint>(
    rt: &R,
    name: &str,
    room: &mut [u8],
) -> io::Result<Option<usize>>
    ensures { IfOk result (λ read. IfSome read (λ n. n ≤ length room.old)) }
{
    match File::open(rt, name) {
        Ok(file) => Ok(Some(read_front(file, room)?)),
        Err(e) => {
            say_unopened(rt, name, e)?;
            Ok(None)
        }
    }
}
