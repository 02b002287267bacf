// The answers of a table: to a frame on a port, to the two questions, and to a comparison with another table.
// Those of one octet are a code or a number; who sees an address has a place and two numbers.
ghost use Rattle.std.specs.Prelude.{◌≡◌, [], ◌∷◌, length, eqb};
ghost use Rattle.output.specs.Output.{Put};
ghost use Rattle.octet_answers.specs.Answers.{back, number_in, done_if, reply_long, count_long, sight_long, compared_long, code_of, replied, counted, number_octets, place_octets, seen, compared_answer};

use crate::WRONG_LENGTH;
use naming::Number;
use octet_description::put_two;
use octets::low_of;
use output::Output;
use questions::Sight;
use rules::Reply;
use whole::clear;

// How many octets each answer has (X2).
pub const REPLY: usize = 1;

pub const COUNT: usize = 1;

pub const SIGHT: usize = 13;

pub const COMPARED: usize = 2;

// In front of a place; where nobody sees the address there is a 0.
const SEEN: u8 = 1;

fn code_of(reply: Reply) -> u8
    ensures { result ≡ code_of reply }
{
    match reply {
        Reply::Recorded => 1,
        Reply::Refreshed => 2,
        Reply::Gone => 3,
        Reply::UnknownGoodbye => 4,
    }
}

#[tactic(auto, unfolding(crate::specs::Answers::replied))]
pub fn answer_reply(answer: &mut [u8], reply: Result<Reply, u8>) -> Result<(), u8>
    ensures exact { back (number_in result) (answer.new ∷ []) ≡ replied reply answer.old }
    ensures done { result ≡ done_if (eqb (length answer.old) reply_long) reply }
{
    if answer.len() != REPLY {
        return Err(WRONG_LENGTH);
    }
    answer[0] = code_of(reply?);
    Ok(())
}

#[tactic(auto, unfolding(crate::specs::Answers::counted))]
pub fn answer_count(answer: &mut [u8], count: Result<u8, u8>) -> Result<(), u8>
    ensures exact { back (number_in result) (answer.new ∷ []) ≡ counted count answer.old }
    ensures done { result ≡ done_if (eqb (length answer.old) count_long) count }
{
    if answer.len() != COUNT {
        return Err(WRONG_LENGTH);
    }
    answer[0] = count?;
    Ok(())
}

fn put_number(out: &mut Output, n: Number)
    ensures { Put (number_octets n) out.old out.new }
{
    out.put_octet(low_of(n.octets));
    out.put_all(&n.value.to_be_bytes());
}

// A place, with interface type and port number (N11).
fn put_sight(answer: &mut [u8], s: Sight)
    requires { length answer.old ≡ sight_long }
    ensures { answer.new ≡ place_octets s.place s.interface s.port }
{
    let mut out = Output::new(answer);
    out.put_octet(SEEN);
    put_two(&mut out, s.place);
    put_number(&mut out, s.interface);
    put_number(&mut out, s.port);
}

#[tactic(auto, unfolding(crate::specs::Answers::seen))]
pub fn answer_sight(answer: &mut [u8], sight: Result<Option<Sight>, u8>) -> Result<(), u8>
    ensures exact { back (number_in result) (answer.new ∷ []) ≡ seen sight answer.old }
    ensures done { result ≡ done_if (eqb (length answer.old) sight_long) sight }
{
    if answer.len() != SIGHT {
        return Err(WRONG_LENGTH);
    }
    match sight? {
        Some(s) => put_sight(answer, s),
        None => clear(answer),
    }
    Ok(())
}

// How many entries stand in the list (D3).
#[tactic(auto, unfolding(crate::specs::Answers::compared_answer))]
pub fn answer_compared(answer: &mut [u8], entries: Result<usize, u8>) -> Result<(), u8>
    ensures exact { back (number_in result) (answer.new ∷ []) ≡ compared_answer entries answer.old }
    ensures done { result ≡ done_if (eqb (length answer.old) compared_long) entries }
{
    if answer.len() != COMPARED {
        return Err(WRONG_LENGTH);
    }
    let n = entries?;
    put_two(&mut Output::new(answer), n);
    Ok(())
}
