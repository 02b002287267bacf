// Where a replay stands in a capture (C9), and what it does where nothing more is due there: a header is read, or a record makes its calls.
// The seconds of a record wait for its last octet (C7). Any place, record buffer and table get an answer.
#![tactic(auto)]

ghost use Rattle.std.specs.Prelude.{◌≡◌};
ghost use Rattle.capture.specs.Layout.{layout_of};
ghost use Rattle.place.specs.State.{state};
ghost use Rattle.records.specs.Place.{between, gap, refused_with, in_body, next, opened, fate_of};
ghost use Rattle.records.specs.Turns.{turn_of, met, closed, headed, settled};

use capture::{Layout, captured_of, layout_of, original_of, stamp_of};
use freeing::seconds_passed;
use hearing::frame_on_port;
use numbers::Table;
use refusal::Refusal;
use text::{Part, text_of};

// The octets of the header of a record (C1).
pub const RECORD_HEADER: u32 = 16;

// The octets of the longest frame (F1).
const LONGEST: u32 = 1514;

// The most seconds that one call can pass (N8).
const MOST_SECONDS: u32 = 65535;

// What becomes of a record (C5): its frame is heard, or it is shorter than its original, or too long for any frame.
#[derive(Clone, Copy)]
pub enum Fate {
    Heard,
    Skipped,
    TooLong,
}

// Where in the file a replay stands: in the file header, in the header of a record, in a record with this stamp;
// or behind the last frame, or refused.
#[derive(Clone, Copy)]
pub enum Stage {
    Opening,
    Heading,
    Body(u32, Fate),
    Stopped,
    Refused(u8),
}

// `before` is the stamp of the record before, where there is one (C4); `held` octets stand in the record buffer and `want` more are due; `left` is what is
// left of the limit.
#[derive(Clone, Copy)]
pub struct Replay {
    pub stage: Stage,
    pub low: bool,
    pub before: Option<u32>,
    pub held: usize,
    pub want: u32,
    pub limit: usize,
    pub left: usize,
    pub port: usize,
}

// The place behind a piece, and the table that the calls left.
#[derive(Clone, Copy)]
pub struct Fed {
    pub replay: Replay,
    pub table: Table,
}

pub fn refused_with(n: u8) -> Replay
    ensures { result ≡ refused_with n }
{
    Replay {
        stage: Stage::Refused(n),
        low: false,
        before: None,
        held: 0,
        want: 0,
        limit: 0,
        left: 0,
        port: 0,
    }
}

// The seconds that pass before a record with this stamp (C4).
fn gap_of(before: Option<u32>, stamp: u32) -> u16
    ensures { result ≡ gap before stamp }
{
    before.map_or(0, |last| seconds_between(last, stamp))
}

#[tactic(auto, using(crate::proofs::PlaceLaws::between_min))]
fn seconds_between(last: u32, stamp: u32) -> u16
    ensures { result ≡ between last stamp }
{
    stamp.saturating_sub(last).min(MOST_SECONDS) as u16
}

// What becomes of a record of so many octets (C5).
#[tactic(auto, unfolding(crate::specs::Place::fate_of))]
fn fate_of(captured: u32, original: u32) -> Fate
    ensures { result ≡ fate_of captured original }
{
    if captured < original {
        return Fate::Skipped;
    }
    if LONGEST < captured {
        return Fate::TooLong;
    }
    Fate::Heard
}

// Where the next record begins, or behind the last frame (C6).
#[tactic(auto, unfolding(crate::specs::Place::next))]
fn next_at(r: Replay, low: bool, before: Option<u32>, left: usize) -> Replay
    ensures { result ≡ next low before r.limit left r.port }
{
    let (stage, want) = if left == 0 {
        (Stage::Stopped, 0)
    } else {
        (Stage::Heading, RECORD_HEADER)
    };
    Replay {
        stage,
        low,
        before,
        held: 0,
        want,
        left,
        ..r
    }
}

fn opened_at(r: Replay, room: &[u8]) -> Replay
    ensures { result ≡ opened (layout_of room.now) r }
{
    match layout_of(room) {
        Layout::HighFirst => next_at(r, false, None, r.left),
        Layout::LowFirst => next_at(r, true, None, r.left),
        Layout::Foreign => refused_with(u8::from(Refusal::NoCapture)),
    }
}

// In a record, at its first octet.
fn body_at(r: Replay, stamp: u32, fate: Fate, captured: u32) -> Replay
    ensures { result ≡ in_body r stamp fate captured }
{
    Replay {
        stage: Stage::Body(stamp, fate),
        held: 0,
        want: captured,
        ..r
    }
}

// A record whose seconds have passed.
fn meet(r: Replay, stamp: u32, fate: Fate, t: Table, buffer: &mut [u8], room: &[u8]) -> Fed
    ensures { turn_of result buffer.new ≡ met fate stamp r room.now (state t buffer.old) }
{
    let before = Some(stamp);
    match fate {
        Fate::Heard => {
            let frame = text_of(
                room,
                Part {
                    start: 0,
                    len: r.held,
                },
            );
            let heard = frame_on_port(t, buffer, r.port, frame);
            Fed {
                replay: next_at(r, r.low, before, r.left.saturating_sub(1)),
                table: heard.table,
            }
        }
        Fate::Skipped => Fed {
            replay: next_at(r, r.low, before, r.left),
            table: t,
        },
        Fate::TooLong => Fed {
            replay: next_at(r, r.low, before, r.left.saturating_sub(1)),
            table: t,
        },
    }
}

// A record that is all there: its seconds pass, and it meets its fate. A table that is not fit ends the replay (C9).
fn close(r: Replay, stamp: u32, fate: Fate, t: Table, buffer: &mut [u8], room: &[u8]) -> Fed
    ensures { turn_of result buffer.new ≡ closed fate stamp r room.now (state t buffer.old) }
{
    let passed = seconds_passed(t, buffer, gap_of(r.before, stamp));
    match passed.answer {
        Ok(()) => meet(r, stamp, fate, passed.table, buffer, room),
        Err(refusal) => Fed {
            replay: refused_with(u8::from(refusal)),
            table: passed.table,
        },
    }
}

// The header of a record is all there; one of no octets is all there with it.
#[tactic(auto, unfolding(crate::specs::Turns::headed_by))]
fn head(r: Replay, t: Table, buffer: &mut [u8], room: &[u8]) -> Fed
    ensures { turn_of result buffer.new ≡ headed r room.now (state t buffer.old) }
{
    let stamp = stamp_of(r.low, room);
    let captured = captured_of(r.low, room);
    let fate = fate_of(captured, original_of(r.low, room));
    let body = body_at(r, stamp, fate, captured);
    if captured == 0 {
        return close(body, stamp, fate, t, buffer, room);
    }
    Fed {
        replay: body,
        table: t,
    }
}

#[tactic(auto, unfolding(crate::specs::Turns::settled))]
pub fn settle(r: Replay, t: Table, buffer: &mut [u8], room: &[u8]) -> Fed
    ensures { turn_of result buffer.new ≡ settled r room.now (state t buffer.old) }
{
    if r.want != 0 {
        return Fed {
            replay: r,
            table: t,
        };
    }
    match r.stage {
        Stage::Opening => Fed {
            replay: opened_at(r, room),
            table: t,
        },
        Stage::Heading => head(r, t, buffer, room),
        Stage::Body(stamp, fate) => close(r, stamp, fate, t, buffer, room),
        Stage::Stopped | Stage::Refused(_) => Fed {
            replay: r,
            table: t,
        },
    }
}
