// The replay of a capture (C1 to C10), fed in pieces that are cut anywhere: the file is never held whole.
// A replay keeps its place by value and what it has of a header or a record in a lent record buffer; the table's calls do the rest.
#![tactic(auto)]

ghost use Rattle.std.specs.Prelude.{◌≡◌, ◌≤◌, ◌<◌, eqb, not, length};
ghost use Rattle.place.specs.State.{state};
ghost use Rattle.replay.specs.Place.{beginning, keeps, end_at};
ghost use Rattle.replay.specs.Feeding.{moment, Taken, fed};
ghost use Rattle.replay.specs.Promises.{Feeds, Ends};

mod sound;

use fitness::is_fit;
use numbers::{PORTS, Table};
use output::put_all;
pub use records::{Fate, Fed, Replay, Stage};
use records::{refused_with, settle};
pub use refusal::Refusal;
use sound::is_sound;

// The octets of the record buffer: those of the longest frame (F1). Either header is shorter.
pub const ROOM: usize = 1514;

// The octets of the file header (C1).
pub(crate) const FILE_HEADER: u32 = 24;

// Before the file: a table, the port that its frames come on, and the number of frames behind which the replay stops.
#[tactic(auto, unfolding(crate::specs::Place::beginning))]
pub fn begin(t: Table, buffer: &[u8], port: usize, limit: usize) -> Replay
    ensures { result ≡ beginning (state t buffer.now) port limit }
{
    if !is_fit(t, buffer) {
        return refused_with(u8::from(Refusal::Unfit));
    }
    if port >= PORTS {
        return refused_with(u8::from(Refusal::NoPort));
    }
    Replay {
        stage: Stage::Opening,
        low: false,
        before: None,
        held: 0,
        want: FILE_HEADER,
        limit,
        left: limit,
        port,
    }
}

// Whether a replay that stands here would look at more of the file.
pub fn wants_more(r: Replay) -> bool
    ensures { result ≡ not (eqb r.want 0) }
{
    r.want != 0
}

fn is_kept(s: Stage) -> bool
    ensures { result ≡ keeps s }
{
    match s {
        Stage::Opening | Stage::Heading => true,
        Stage::Body(_, fate) => matches!(fate, Fate::Heard),
        Stage::Stopped | Stage::Refused(_) => false,
    }
}

// A part of the file that is no longer than what is due.
fn take_in(r: Replay, room: &mut [u8], part: &[u8]) -> Replay
    requires { length part.now ≤ r.want }
    ensures { Taken r room.old part.now result room.new }
{
    let mut q = r;
    q.want = r.want - part.len() as u32;
    if is_kept(r.stage) {
        q.held = put_all(room, r.held, part);
    }
    q
}

// A piece is taken in by parts, each of which ends at the latest where what is due does.
// By an index: no iterator cuts parts whose length each part before decides.
fn feed_parts(r: Replay, t: Table, buffer: &mut [u8], room: &mut [u8], piece: &[u8]) -> Fed
    ensures { moment result.replay room.new (state result.table buffer.new) ≡ fed (moment r room.old (state t buffer.old)) piece.now }
{
    let mut q = Fed {
        replay: r,
        table: t,
    };
    let mut at = 0;
    while at < piece.len() {
        let due = q.replay.want as usize;
        if due == 0 {
            return q;
        }
        let end = at + due.min(piece.len() - at);
        let held = take_in(q.replay, room, &piece[at..end]);
        q = settle(held, q.table, buffer, room);
        at = end;
    }
    q
}

// The next piece of the file, of any size. A record buffer of another length and a place that no replay made give 1 (C9, C10).
pub fn feed(r: Replay, t: Table, buffer: &mut [u8], room: &mut [u8], piece: &[u8]) -> Fed
    ensures { Feeds r room.old (state t buffer.old) piece.now (moment result.replay room.new (state result.table buffer.new)) }
{
    if room.len() != ROOM || !is_sound(r) {
        return Fed {
            replay: refused_with(u8::from(Refusal::Unfit)),
            table: t,
        };
    }
    feed_parts(r, t, buffer, room, piece)
}

// What a replay answers where the file is over at its place, which some replay made: a number of frames handed over (C6), or the refusal.
fn end_at(r: Replay) -> Result<usize, Refusal>
    ensures { result ≡ end_at r }
{
    let handed = r.limit.saturating_sub(r.left);
    match r.stage {
        Stage::Opening => Err(Refusal::NoCapture),
        Stage::Heading if r.held == 0 => Ok(handed),
        Stage::Heading | Stage::Body(_, _) => Err(Refusal::Torn),
        Stage::Stopped => Ok(handed),
        Stage::Refused(n) => Err(Refusal::try_from(n).unwrap_or(Refusal::Unfit)),
    }
}

// The file is over.
pub fn finish(r: Replay) -> Result<usize, Refusal>
    ensures { Ends r result }
{
    if !is_sound(r) {
        return Err(Refusal::Unfit);
    }
    end_at(r)
}
