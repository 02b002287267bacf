// The call from C on two tables (X1): what changed between two looks (D1 to D4).
// Neither table is written; the second one's slices have a 2 behind their names.
ghost use Rattle.octet_table.specs.Lent.{lent};
ghost use Rattle.exports.specs.Calls.{Compares};

use crate::calls::{in_numbers, number_in};
use compare::compare;
use octet_answers::{COMPARED, WRONG_LENGTH, answer_compared};
use octet_table::{lengths_fit, table_in};

// Refusals 1 and 14. The answer's length is tested before anything is written (X2).
pub fn tambolune_compare(
    ports: &[u8],
    seconds: &[u8],
    lengths: &[u8],
    senders: &[u8],
    buffer: &[u8],
    ports2: &[u8],
    seconds2: &[u8],
    lengths2: &[u8],
    senders2: &[u8],
    buffer2: &[u8],
    list: &mut [u8],
    answer: &mut [u8],
) -> u8
    ensures { Compares (lent ports.now seconds.now lengths.now senders.now) buffer.now (lent ports2.now seconds2.now lengths2.now senders2.now) buffer2.now list.old answer.old list.new answer.new result }
{
    if !lengths_fit(ports.len(), seconds.len(), lengths.len(), senders.len()) {
        return WRONG_LENGTH;
    }
    if !lengths_fit(ports2.len(), seconds2.len(), lengths2.len(), senders2.len()) {
        return WRONG_LENGTH;
    }
    if answer.len() != COMPARED {
        return WRONG_LENGTH;
    }
    let first = table_in(ports, seconds, lengths, senders);
    let second = table_in(ports2, seconds2, lengths2, senders2);
    let entries = compare(first, buffer, second, buffer2, list);
    number_in(answer_compared(answer, in_numbers(entries)))
}
