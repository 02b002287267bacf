// The comparison of two tables, for C: it is the library's call of its name, with its promise.
// See `exports` for what it does and why.
ghost use Rattle.octet_table.specs.Lent.{lent};
ghost use Rattle.exports.specs.Calls.{Compares};

// Refusals 1 and 14. The answer's length is tested before anything is written (X2).
#[unsafe(no_mangle)]
pub extern "C" fn tambolune_compare(
    ports: &[u8],
    seconds: &[u8],
    lengths: &[u8],
    senders: &[u8],
    buffer: &[u8],
    ports2: &[u8],
    seconds2: &[u8],
    lengths2: &[u8],
    senders2: &[u8],
    buffer2: &[u8],
    list: &mut [u8],
    answer: &mut [u8],
) -> u8
    ensures { Compares (lent ports.now seconds.now lengths.now senders.now) buffer.now (lent ports2.now seconds2.now lengths2.now senders2.now) buffer2.now list.old answer.old list.new answer.new result }
{
    exports::tambolune_compare(
        ports, seconds, lengths, senders, buffer, ports2, seconds2, lengths2, senders2, buffer2,
        list, answer,
    )
}
