// The calls from C that need no table: a frame judged or read, an LLDPDU read, an announcement written (X1).
// A part of what is read counts from the first octet of the LLDPDU, which in a frame stands behind the header (X5).
ghost use Rattle.exports.specs.Calls.{Judges, TellsFrame, TellsLldpdu, Writes};

use crate::calls::{in_numbers, number_in};
use octet_answers::{WRITTEN, WRONG_LENGTH, answer_judged, answer_reading, answer_written};
use octet_description::{SIZE, description_in, presences_fit};
use reader::{read_frame, read_lldpdu};
use refusal::Refusal;
use text::{Part, text_of};
use writer::write;

// Refusals 1, 3 to 6.
pub fn tambolune_judge(frame: &[u8], answer: &mut [u8]) -> u8
    ensures { Judges frame.now answer.old answer.new result }
{
    number_in(answer_judged(answer, in_numbers(read_frame(frame))))
}

// Refusals 1, 3 to 6.
pub fn tambolune_read(frame: &[u8], answer: &mut [u8], description: &mut [u8]) -> u8
    ensures { TellsFrame frame.now answer.old description.old answer.new description.new result }
{
    number_in(answer_reading(answer, description, in_numbers(read_frame(frame))))
}

// The most octets of an LLDPDU that are looked at: a start and a length have two octets (X5).
const LOOKED_AT: usize = 65535;

// Refusals 1, 4 to 6.
pub fn tambolune_read_lldpdu(lldpdu: &[u8], answer: &mut [u8], description: &mut [u8]) -> u8
    ensures { TellsLldpdu lldpdu.now answer.old description.old answer.new description.new result }
{
    let front = text_of(
        lldpdu,
        Part {
            start: 0,
            len: LOOKED_AT,
        },
    );
    number_in(answer_reading(answer, description, in_numbers(read_lldpdu(front))))
}

// Refusals 1, 9, 10. The answer's length is tested before anything is written (X2).
pub fn tambolune_write(description: &[u8], text: &[u8], output: &mut [u8], answer: &mut [u8]) -> u8
    ensures { Writes description.now text.now output.old answer.old output.new answer.new result }
{
    if description.len() != SIZE || answer.len() != WRITTEN {
        return WRONG_LENGTH;
    }
    // A presence is 0 or 1 (X5).
    if !presences_fit(description) {
        return Refusal::BreaksARule as u8;
    }
    let written = write(description_in(description), text, output);
    number_in(answer_written(answer, in_numbers(written)))
}
