// An open file, read once, in pieces that are fed to two looks (C9, J4) until it is over or neither wants more.
// A read that fails is no end of the file: it is told apart, and what was answered then counts for nothing.
#![tactic(auto)]

ghost use Rattle.std.specs.Prelude.{◌≡◌, ◌<◌, length};
ghost use Rattle.place.specs.State.{state};
ghost use Rattle.replay.specs.Place.{room_octets};
ghost use Rattle.play.specs.Numbers.{in_numbers};
ghost use Rattle.play.specs.Reading.{standing, Begins, GoesOn, ReadsOn, Ended, Plays};

mod looks;
mod progress;

pub use looks::between;
use numbers::Table;
use progress::{Progress, end, nothing_read, read_more};
use refusal::Refusal;
use replay::{Fed, ROOM, begin, feed, finish, wants_more};
use std::io::Read;

// As many octets as one read asks for.
const PIECE: usize = 65536;

// What a look begins with: its table, and the limit of its replay.
#[derive(Clone, Copy)]
pub struct Look {
    pub table: Table,
    pub limit: usize,
}

// How the reading goes on from here: there may be more, all that counts was read, or a read failed.
#[derive(Clone, Copy)]
enum Course {
    On,
    Over,
    Failed,
}

// The two replays behind what was read, and the tables that their calls left.
#[derive(Clone, Copy)]
struct Step {
    first: Fed,
    second: Fed,
    progress: Progress,
    course: Course,
}

// What a replay answered at the end of the file, with the number of its refusal, and the table that it left.
#[derive(Clone, Copy)]
pub struct Seen {
    pub answer: Result<usize, u8>,
    pub table: Table,
}

#[derive(Clone, Copy)]
pub struct Played {
    pub first: Seen,
    pub second: Seen,
    pub is_read: bool,
}

fn begun(l: Look, buffer: &[u8], port: usize) -> Fed
    ensures { Begins (state l.table buffer.now) port l.limit result }
{
    Fed {
        replay: begin(l.table, buffer, port, l.limit),
        table: l.table,
    }
}

fn go_on(f: Fed, buffer: &mut [u8], room: &mut [u8], piece: &[u8]) -> Fed
    ensures { GoesOn (standing f room.old buffer.old) piece.now (standing result room.new buffer.new) }
{
    feed(f.replay, f.table, buffer, room, piece)
}

// What is answered, with the number of its refusal.
pub(crate) fn in_numbers(answer: Result<usize, Refusal>) -> Result<usize, u8>
    ensures { result ≡ in_numbers answer }
{
    match answer {
        Ok(n) => Ok(n),
        Err(refusal) => Err(u8::from(refusal)),
    }
}

fn ended(f: Fed) -> Seen
    ensures { Ended f result }
{
    Seen {
        answer: in_numbers(finish(f.replay)),
        table: f.table,
    }
}

// The octets of a read. They are a call's result so that no proof has to count them.
fn piece_room() -> [u8; PIECE] {
    [0; PIECE]
}

// Reads once, and feeds what came to both. One that wants no more passes it over (C6).
fn read_some(
    rt: &impl Eprint,
    file: &mut impl Read,
    s: Step,
    before: &mut [u8],
    room: &mut [u8],
    after: &mut [u8],
    space: &mut [u8],
) -> Step
    ensures { ReadsOn (standing s.first room.old before.old) (standing s.second space.old after.old) (standing result.first room.new before.new) (standing result.second space.new after.new) }
{
    let mut piece = piece_room();
    let n = match file.read(&mut piece) {
        Ok(n) => n,
        Err(_) => {
            return Step {
                course: Course::Failed,
                ..s
            };
        }
    };
    if n == 0 {
        return Step {
            course: Course::Over,
            ..s
        };
    }
    let first = go_on(s.first, before, room, &piece[..n]);
    let second = go_on(s.second, after, space, &piece[..n]);
    let course = if wants_more(first.replay) || wants_more(second.replay) {
        Course::On
    } else {
        Course::Over
    };
    Step {
        first,
        second,
        progress: read_more(rt, s.progress, n),
        course,
    }
}

// The whole file, with a record buffer for each look.
fn play_in(
    rt: &impl Eprint,
    file: &mut impl Read,
    port: usize,
    first: Look,
    before: &mut [u8],
    room: &mut [u8],
    second: Look,
    after: &mut [u8],
    space: &mut [u8],
    p: Progress,
) -> Played
    requires room_len { length room.old ≡ room_octets }
    requires space_len { length space.old ≡ room_octets }
    ensures { Plays port (state first.table before.old) first.limit result.first before.new (state second.table after.old) second.limit result.second after.new }
{
    let mut s = Step {
        first: begun(first, before, port),
        second: begun(second, after, port),
        progress: p,
        course: Course::On,
    };
    // A proved loop has to end, and nothing says that a file does: so the reads are counted down from a number that no file uses up.
    let mut turns = u64::MAX;
    while turns > 0 && matches!(s.course, Course::On) {
        s = read_some(rt, file, s, before, room, after, space);
        turns -= 1;
    }
    end(rt, s.progress);
    let is_read = matches!(s.course, Course::Over);
    Played {
        first: ended(s.first),
        second: ended(s.second),
        is_read,
    }
}

// The whole file. There are octets, the same for both looks, of which the rules give these answers and these tables (C2 to C9); that they are those of
// the file, all of them and in order, no contract can say, since none says what a read gives. It is tested.
pub fn play(
    rt: &impl Eprint,
    file: &mut impl Read,
    port: usize,
    first: Look,
    before: &mut [u8],
    second: Look,
    after: &mut [u8],
    wants_progress: bool,
) -> Played
    ensures { Plays port (state first.table before.old) first.limit result.first before.new (state second.table after.old) second.limit result.second after.new }
{
    let mut room = [0u8; ROOM];
    let mut space = [0u8; ROOM];
    play_in(
        rt,
        file,
        port,
        first,
        before,
        &mut room,
        second,
        after,
        &mut space,
        nothing_read(wants_progress),
    )
}
