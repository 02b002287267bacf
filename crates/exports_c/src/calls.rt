// The calls on a table, for C: each is the library's call of its name, with its promise.
// See `exports` for what they do and why.
ghost use Rattle.octet_table.specs.Lent.{lent};
ghost use Rattle.exports.specs.Calls.{Starts, Hears, Passes, Loses, Counts, Sees};

// Refusal 1.
#[unsafe(no_mangle)]
pub extern "C" fn tambolune_start(
    ports: &mut [u8],
    seconds: &mut [u8],
    lengths: &mut [u8],
    senders: &mut [u8],
    buffer: &mut [u8],
) -> u8
    ensures { Starts (lent ports.old seconds.old lengths.old senders.old) buffer.old (lent ports.new seconds.new lengths.new senders.new) buffer.new result }
{
    exports::tambolune_start(ports, seconds, lengths, senders, buffer)
}

// Refusals 1 to 8, 13.
#[unsafe(no_mangle)]
pub extern "C" fn tambolune_frame_on_port(
    ports: &mut [u8],
    seconds: &mut [u8],
    lengths: &mut [u8],
    senders: &mut [u8],
    buffer: &mut [u8],
    port: usize,
    frame: &[u8],
    answer: &mut [u8],
) -> u8
    ensures { Hears port frame.now (lent ports.old seconds.old lengths.old senders.old) buffer.old answer.old (lent ports.new seconds.new lengths.new senders.new) buffer.new answer.new result }
{
    exports::tambolune_frame_on_port(
        ports, seconds, lengths, senders, buffer, port, frame, answer,
    )
}

// Refusal 1.
#[unsafe(no_mangle)]
pub extern "C" fn tambolune_seconds_passed(
    ports: &mut [u8],
    seconds: &mut [u8],
    lengths: &mut [u8],
    senders: &mut [u8],
    buffer: &mut [u8],
    gone: usize,
) -> u8
    ensures { Passes gone (lent ports.old seconds.old lengths.old senders.old) buffer.old (lent ports.new seconds.new lengths.new senders.new) buffer.new result }
{
    exports::tambolune_seconds_passed(ports, seconds, lengths, senders, buffer, gone)
}

// Refusals 1 and 2.
#[unsafe(no_mangle)]
pub extern "C" fn tambolune_link_lost(
    ports: &mut [u8],
    seconds: &mut [u8],
    lengths: &mut [u8],
    senders: &mut [u8],
    buffer: &mut [u8],
    port: usize,
) -> u8
    ensures { Loses port (lent ports.old seconds.old lengths.old senders.old) buffer.old (lent ports.new seconds.new lengths.new senders.new) buffer.new result }
{
    exports::tambolune_link_lost(ports, seconds, lengths, senders, buffer, port)
}

// Refusals 1 and 2.
#[unsafe(no_mangle)]
pub extern "C" fn tambolune_how_many(
    ports: &[u8],
    seconds: &[u8],
    lengths: &[u8],
    senders: &[u8],
    buffer: &[u8],
    port: usize,
    answer: &mut [u8],
) -> u8
    ensures { Counts port (lent ports.now seconds.now lengths.now senders.now) buffer.now answer.old answer.new result }
{
    exports::tambolune_how_many(ports, seconds, lengths, senders, buffer, port, answer)
}

// Refusal 1.
#[unsafe(no_mangle)]
pub extern "C" fn tambolune_who_sees(
    ports: &[u8],
    seconds: &[u8],
    lengths: &[u8],
    senders: &[u8],
    buffer: &[u8],
    address: &[u8],
    start: usize,
    answer: &mut [u8],
) -> u8
    ensures { Sees address.now start (lent ports.now seconds.now lengths.now senders.now) buffer.now answer.old answer.new result }
{
    exports::tambolune_who_sees(
        ports, seconds, lengths, senders, buffer, address, start, answer,
    )
}
