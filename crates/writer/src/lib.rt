// The agent's writer: from a description and the text that it points into, the octets of its announcement.
// A description that breaks a rule, or an output that is too short, is refused and not one octet is written.
#![tactic(auto)]

ghost use Rattle.std.specs.Prelude.{◌≡◌};
ghost use Rattle.output.specs.Output.{output_at, puts};
ghost use Rattle.reading.specs.Meaning.{said_by};
ghost use Rattle.announcement.specs.Encode.{encode, countable_of};
ghost use Rattle.writer.specs.Write.{Writes};

use announcement::put_lldpdu;
use description::is_sound;
use output::{Output, put_all};
use parts::all_inside;
pub use reader::{
    Capabilities, Description, IdPart, Link, Part, Parts, System, empty_parts, empty_system,
    with_part,
};
pub use refusal::Refusal;

// The most octets of an LLDPDU.
const LONGEST: usize = 1500;

// Room for the longest, and for one octet more, so that a longer one shows.
const ROOM: usize = LONGEST + 1;

// An LLDPDU in a room of its own; how many of its octets have room.
fn draft(room: &mut [u8], text: &[u8], d: Description) -> usize
    ensures { output_at room.new result ≡ puts (encode (countable_of (said_by text.now d))) (output_at room.old 0) }
{
    let mut lldpdu = Output::new(room);
    put_lldpdu(&mut lldpdu, text, d);
    lldpdu.end()
}

// Writes the LLDPDU of a description to the front of out (W1, W4); R9 goes before R10 (Q1).
// It is put into a room of its own first: what is refused must not touch out (Q2), and its size is known only then.
pub fn write(d: Description, text: &[u8], out: &mut [u8]) -> Result<usize, Refusal>
    ensures { Writes text.now d out.old result out.new }
{
    if !all_inside(text.len(), d) || !is_sound(text, d) {
        return Err(Refusal::BreaksARule);
    }
    let mut room = [0; ROOM];
    let size = draft(&mut room, text, d);
    if size > LONGEST {
        return Err(Refusal::BreaksARule);
    }
    if size > out.len() {
        return Err(Refusal::NoRoom);
    }
    put_all(out, 0, &room[..size]);
    Ok(size)
}
