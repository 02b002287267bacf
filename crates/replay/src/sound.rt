// Whether a place is one that a replay can have made, by its numbers (C10).
// A caller may hand in any place; one that is not sound is refused with 1.
ghost use Rattle.std.specs.Prelude.{◌≡◌};
ghost use Rattle.replay.specs.Sound.{in_file, in_header, in_opening, in_record, is_stopped, is_refusal, is_refused, sound};

use crate::{FILE_HEADER, ROOM};
use numbers::PORTS;
use records::{Fate, RECORD_HEADER, Replay, Stage};
use refusal::Refusal;

// The port is there, and of the limit no more is left than there was; before the first record all of it.
fn is_in_file(r: Replay) -> bool
    ensures { result ≡ in_file r }
{
    r.port < PORTS && r.left <= r.limit && (r.before.is_some() || r.left == r.limit)
}

// Of a header with so many octets some are held, and the others are due.
fn is_in_header(octets: usize, r: Replay) -> bool
    ensures { result ≡ in_header octets r }
{
    r.held < octets && r.want as usize == octets.saturating_sub(r.held)
}

fn is_in_opening(r: Replay) -> bool
    ensures { result ≡ in_opening r }
{
    is_in_header(FILE_HEADER as usize, r) && !r.low && r.before.is_none()
}

// A record of which some octets are due; none but those of a frame are held.
fn is_in_record(f: Fate, r: Replay) -> bool
    ensures { result ≡ in_record f r }
{
    if matches!(f, Fate::Heard) {
        return r.want != 0 && r.held < ROOM && r.want as usize <= ROOM.saturating_sub(r.held);
    }
    r.want != 0 && r.held == 0
}

// Behind the last frame; with a limit of 0 no record was looked at.
fn is_stopped(r: Replay) -> bool
    ensures { result ≡ is_stopped r }
{
    r.held == 0 && r.want == 0 && r.left == 0 && (r.before.is_none() || r.limit != 0)
}

// A refusal that a place can have: 12 is told at the end of a file.
fn is_refusal(n: u8) -> bool
    ensures { result ≡ is_refusal n }
{
    n == u8::from(Refusal::Unfit)
        || n == u8::from(Refusal::NoPort)
        || n == u8::from(Refusal::NoCapture)
}

// A refusal is its number alone.
fn is_refused(n: u8, r: Replay) -> bool
    ensures { result ≡ is_refused n r }
{
    is_refusal(n)
        && !r.low
        && r.before.is_none()
        && r.held == 0
        && r.want == 0
        && r.limit == 0
        && r.left == 0
        && r.port == 0
}

#[tactic(auto, unfolding(crate::specs::Sound::sound))]
pub(crate) fn is_sound(r: Replay) -> bool
    ensures { result ≡ sound r }
{
    match r.stage {
        Stage::Opening => is_in_opening(r) && is_in_file(r),
        Stage::Heading => is_in_header(RECORD_HEADER as usize, r) && r.left != 0 && is_in_file(r),
        Stage::Body(_, fate) => is_in_record(fate, r) && r.left != 0 && is_in_file(r),
        Stage::Stopped => is_stopped(r) && is_in_file(r),
        Stage::Refused(n) => is_refused(n, r),
    }
}
