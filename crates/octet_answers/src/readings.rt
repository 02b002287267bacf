// The answers on a frame or an LLDPDU that was read, and on an announcement that was written.
// A verdict stands in front: the length of the LLDPDU, and whether it is HTIP.
ghost use Rattle.std.specs.Prelude.{◌≡◌, [], ◌∷◌, length, eqb};
ghost use Rattle.output.specs.Output.{Put};
ghost use Rattle.octet_answers.specs.Answers.{back, number_in, done_if, verdict_octets, judge_right, judged, read_right, read_answer, written_long, written};

use crate::WRONG_LENGTH;
use octet_description::{SIZE, put_description, put_front, put_two};
use output::Output;
use reading::Reading;

// How many octets each answer has (X2).
pub const JUDGED: usize = 15;

pub const VERDICT: usize = 3;

pub const WRITTEN: usize = 2;

fn put_verdict(answer: &mut Output, r: Reading)
    ensures { Put (verdict_octets r) answer.old answer.new }
{
    put_two(answer, r.octets);
    answer.put_octet(r.htip as u8);
}

// The verdict, then chassis, port ID and seconds.
#[tactic(auto, unfolding(crate::specs::Answers::judged))]
pub fn answer_judged(answer: &mut [u8], reading: Result<Reading, u8>) -> Result<(), u8>
    ensures exact { back (number_in result) (answer.new ∷ []) ≡ judged reading answer.old }
    ensures done { result ≡ done_if (judge_right answer.old) reading }
{
    if answer.len() != JUDGED {
        return Err(WRONG_LENGTH);
    }
    let r = reading?;
    let mut out = Output::new(answer);
    put_verdict(&mut out, r);
    put_front(&mut out, r.description);
    Ok(())
}

// The verdict, and the whole description in a slice of its own.
#[tactic(auto, unfolding(crate::specs::Answers::read_answer))]
pub fn answer_reading(
    answer: &mut [u8],
    description: &mut [u8],
    reading: Result<Reading, u8>,
) -> Result<(), u8>
    ensures exact { back (number_in result) (answer.new ∷ description.new ∷ []) ≡ read_answer reading answer.old description.old }
    ensures done { result ≡ done_if (read_right answer.old description.old) reading }
{
    if answer.len() != VERDICT || description.len() != SIZE {
        return Err(WRONG_LENGTH);
    }
    let r = reading?;
    put_verdict(&mut Output::new(answer), r);
    put_description(&mut Output::new(description), r.description);
    Ok(())
}

// How many octets were written.
#[tactic(auto, unfolding(crate::specs::Answers::written))]
pub fn answer_written(answer: &mut [u8], octets: Result<usize, u8>) -> Result<(), u8>
    ensures exact { back (number_in result) (answer.new ∷ []) ≡ written octets answer.old }
    ensures done { result ≡ done_if (eqb (length answer.old) written_long) octets }
{
    if answer.len() != WRITTEN {
        return Err(WRONG_LENGTH);
    }
    let n = octets?;
    put_two(&mut Output::new(answer), n);
    Ok(())
}
