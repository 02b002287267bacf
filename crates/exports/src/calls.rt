// The calls from C on a table (X1): its numbers and senders are four lent slices beside the buffer.
// A refusal puts the same octets back, so it needs no branch of its own.
ghost use Rattle.std.specs.Prelude.{◌≡◌};
ghost use Rattle.refusal.specs.Refusal.{refusal_of};
ghost use Rattle.octet_table.specs.Lent.{lent};
ghost use Rattle.octet_answers.specs.Answers.{in_numbers, number_in};
ghost use Rattle.exports.specs.Calls.{capped_of, Starts, Hears, Passes, Loses, Counts, Sees};

use octet_answers::{REPLY, WRONG_LENGTH, answer_count, answer_reply, answer_sight};
use octet_table::{lengths_fit, put_table, table_in};
use octets::six;
use refusal::Refusal;
use table::{frame_on_port, how_many, link_lost, seconds_passed, start, who_sees};

// The octets of an address (X2).
pub(crate) const ADDRESS: usize = 6;

// No record has more seconds left, so more than that act as that many (X6).
const LONGEST: usize = 65535;

// The number of a refusal, and 0 where there is none.
pub(crate) fn refusal_of(answer: Result<(), Refusal>) -> u8
    ensures { result ≡ refusal_of answer }
{
    match answer {
        Ok(()) => 0,
        Err(refusal) => u8::from(refusal),
    }
}

// What is answered, with the number of its refusal.
pub(crate) fn in_numbers<T>(answer: Result<T, Refusal>) -> Result<T, u8>
    ensures { result ≡ in_numbers answer }
{
    match answer {
        Ok(said) => Ok(said),
        Err(refusal) => Err(u8::from(refusal)),
    }
}

// The number that came back, and 0 where there is none.
pub(crate) fn number_in(answer: Result<(), u8>) -> u8
    ensures { result ≡ number_in answer }
{
    match answer {
        Ok(()) => 0,
        Err(number) => number,
    }
}

// Refusal 1.
pub fn tambolune_start(
    ports: &mut [u8],
    seconds: &mut [u8],
    lengths: &mut [u8],
    senders: &mut [u8],
    buffer: &mut [u8],
) -> u8
    ensures { Starts (lent ports.old seconds.old lengths.old senders.old) buffer.old (lent ports.new seconds.new lengths.new senders.new) buffer.new result }
{
    if !lengths_fit(ports.len(), seconds.len(), lengths.len(), senders.len()) {
        return WRONG_LENGTH;
    }
    let r = start(table_in(ports, seconds, lengths, senders), buffer);
    put_table(r.table, ports, seconds, lengths, senders);
    refusal_of(r.answer)
}

// Refusals 1 to 8, 13.
pub fn tambolune_frame_on_port(
    ports: &mut [u8],
    seconds: &mut [u8],
    lengths: &mut [u8],
    senders: &mut [u8],
    buffer: &mut [u8],
    port: usize,
    frame: &[u8],
    answer: &mut [u8],
) -> u8
    ensures { Hears port frame.now (lent ports.old seconds.old lengths.old senders.old) buffer.old answer.old (lent ports.new seconds.new lengths.new senders.new) buffer.new answer.new result }
{
    if !lengths_fit(ports.len(), seconds.len(), lengths.len(), senders.len()) {
        return WRONG_LENGTH;
    }
    if answer.len() != REPLY {
        return WRONG_LENGTH;
    }
    let r = frame_on_port(
        table_in(ports, seconds, lengths, senders),
        buffer,
        port,
        frame,
    );
    put_table(r.table, ports, seconds, lengths, senders);
    number_in(answer_reply(answer, in_numbers(r.reply)))
}

fn capped(seconds: usize) -> u16
    ensures { result ≡ capped_of seconds }
{
    seconds.min(LONGEST) as u16
}

// Refusal 1.
pub fn tambolune_seconds_passed(
    ports: &mut [u8],
    seconds: &mut [u8],
    lengths: &mut [u8],
    senders: &mut [u8],
    buffer: &mut [u8],
    gone: usize,
) -> u8
    ensures { Passes gone (lent ports.old seconds.old lengths.old senders.old) buffer.old (lent ports.new seconds.new lengths.new senders.new) buffer.new result }
{
    if !lengths_fit(ports.len(), seconds.len(), lengths.len(), senders.len()) {
        return WRONG_LENGTH;
    }
    let r = seconds_passed(
        table_in(ports, seconds, lengths, senders),
        buffer,
        capped(gone),
    );
    put_table(r.table, ports, seconds, lengths, senders);
    refusal_of(r.answer)
}

// Refusals 1 and 2.
pub fn tambolune_link_lost(
    ports: &mut [u8],
    seconds: &mut [u8],
    lengths: &mut [u8],
    senders: &mut [u8],
    buffer: &mut [u8],
    port: usize,
) -> u8
    ensures { Loses port (lent ports.old seconds.old lengths.old senders.old) buffer.old (lent ports.new seconds.new lengths.new senders.new) buffer.new result }
{
    if !lengths_fit(ports.len(), seconds.len(), lengths.len(), senders.len()) {
        return WRONG_LENGTH;
    }
    let r = link_lost(table_in(ports, seconds, lengths, senders), buffer, port);
    put_table(r.table, ports, seconds, lengths, senders);
    refusal_of(r.answer)
}

// Refusals 1 and 2.
pub fn tambolune_how_many(
    ports: &[u8],
    seconds: &[u8],
    lengths: &[u8],
    senders: &[u8],
    buffer: &[u8],
    port: usize,
    answer: &mut [u8],
) -> u8
    ensures { Counts port (lent ports.now seconds.now lengths.now senders.now) buffer.now answer.old answer.new result }
{
    if !lengths_fit(ports.len(), seconds.len(), lengths.len(), senders.len()) {
        return WRONG_LENGTH;
    }
    let count = how_many(table_in(ports, seconds, lengths, senders), buffer, port);
    number_in(answer_count(answer, in_numbers(count)))
}

// Refusal 1.
pub fn tambolune_who_sees(
    ports: &[u8],
    seconds: &[u8],
    lengths: &[u8],
    senders: &[u8],
    buffer: &[u8],
    address: &[u8],
    start: usize,
    answer: &mut [u8],
) -> u8
    ensures { Sees address.now start (lent ports.now seconds.now lengths.now senders.now) buffer.now answer.old answer.new result }
{
    if !lengths_fit(ports.len(), seconds.len(), lengths.len(), senders.len())
        || address.len() != ADDRESS
    {
        return WRONG_LENGTH;
    }
    let sight = who_sees(
        table_in(ports, seconds, lengths, senders),
        buffer,
        six(address, 0),
        start,
    );
    number_in(answer_sight(answer, in_numbers(sight)))
}
