// What the TLVs behind the first three say, gathered in one pass: for each topic how often and where first,
// and where the management addresses are. A content is remembered as its place in the LLDPDU, so that nothing is copied.
#![tactic(auto)]

ghost use Rattle.std.specs.Prelude.{◌≡◌, drop};
ghost use Rattle.fields.specs.Field.{field_of};
ghost use Rattle.walk.specs.Walk.{walk};
ghost use Rattle.found.specs.Found.{nothing, part_at, marked_at, survey_by, htip_in};

use fields::{Field, field_of, is_unread};
use refusal::Refusal;
use text::{Part, Parts, empty_parts, with_part};
use walk::{Step, step_at};

// What was met of a topic: how often, up to twice, and where its first content lies. The count is as wide as the rest, since
// a gap behind a narrow one is copied octet by octet.
#[derive(Clone, Copy)]
pub struct Mark {
    pub times: usize,
    pub start: usize,
    pub len: usize,
}

// The flag stands last, where no gap behind it comes before anything else.
#[derive(Clone, Copy)]
pub struct Found {
    pub marks: [Mark; fields::TOPICS],
    pub management: Parts,
    pub malformed: bool,
}

// The walk behind the first three TLVs: where it ends or why it is refused, and what was found on the way.
#[derive(Clone, Copy)]
pub struct Survey {
    pub extent: Result<usize, Refusal>,
    pub found: Found,
}

// The part of the LLDPDU that a mark delimits.
pub fn part_at(m: Mark) -> Part
    ensures { result ≡ part_at m }
{
    Part {
        start: m.start,
        len: m.len,
    }
}

// The first stays; that there was another is known (A2, H1).
#[tactic(auto, unfolding(crate::specs::Found::marked_at))]
fn marked(m: Mark, first: Part) -> Mark
    ensures { result ≡ marked_at m first.start first.len }
{
    if m.times == 0 {
        Mark {
            times: 1,
            start: first.start,
            len: first.len,
        }
    } else {
        Mark { times: 2, ..m }
    }
}

fn nothing_found() -> Found
    ensures { result ≡ nothing }
{
    Found {
        marks: [Mark {
            times: 0,
            start: 0,
            len: 0,
        }; fields::TOPICS],
        management: empty_parts(),
        malformed: false,
    }
}

// What a TLV says. Most TLVs that strangers send are unread, and the test for that is cheap beside a call of field_of.
fn said(kind: u8, part: &[u8]) -> Field
    ensures { result ≡ field_of kind part.now }
{
    if is_unread(kind, part) {
        Field::Skipped
    } else {
        field_of(kind, part)
    }
}

// The TLVs from a place on, to End. What was found is changed where it stands, since to hand it on costs more than to read a TLV.
pub fn gathered(s: &[u8], from: usize) -> Survey
    ensures { result ≡ survey_by nothing (walk (drop from s.now) 0 from) }
{
    let mut at = from;
    let mut found = nothing_found();
    let extent = loop {
        match step_at(s, at) {
            Err(r) => break Err(r),
            Ok(Step::End(end)) => break Ok(end),
            Ok(Step::Next { kind, start, len }) => {
                at = start + len;
                match said(kind, &s[start..at]) {
                    Field::Skipped => {}
                    Field::Malformed => found.malformed = true,
                    Field::Says { topic, skip } => {
                        let part = Part {
                            start: start + skip,
                            len: len - skip,
                        };
                        if topic == fields::MANAGEMENT {
                            found.management = with_part(found.management, part);
                        } else {
                            found.marks[topic] = marked(found.marks[topic], part);
                        }
                    }
                }
            }
        }
    };
    Survey { extent, found }
}

// IDs 1 and 4 once, 2 and 3 at most once, and nothing malformed (H1).
#[tactic(auto, unfolding(crate::specs::Found::htip_in))]
pub fn is_htip(found: Found) -> bool
    ensures { result ≡ htip_in found }
{
    !found.malformed
        && found.marks[fields::CATEGORY].times == 1
        && found.marks[fields::MODEL_NUMBER].times == 1
        && found.marks[fields::MANUFACTURER].times <= 1
        && found.marks[fields::MODEL_NAME].times <= 1
}
