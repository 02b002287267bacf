// The sizes that a caller in C asks for: each is the library's of its name, with its promise.
// See `exports` for what they say.
ghost use Rattle.std.specs.Prelude.{◌≡◌};
ghost use Rattle.numbers.specs.Sizes.{ports, places};
ghost use Rattle.place.specs.State.{size, octets};
ghost use Rattle.octet_table.specs.Lent.{numbers_long, senders_len};
ghost use Rattle.octet_description.specs.Octets.{size as description_long};
ghost use Rattle.octet_answers.specs.Answers.{judged_long, verdict_long, written_long, reply_long, count_long, sight_long, compared_long};
ghost use Rattle.exports.specs.Calls.{address_long};

#[unsafe(no_mangle)]
pub extern "C" fn tambolune_size_ports() -> usize
    ensures { result ≡ ports }
{
    exports::tambolune_size_ports()
}

#[unsafe(no_mangle)]
pub extern "C" fn tambolune_size_places() -> usize
    ensures { result ≡ places }
{
    exports::tambolune_size_places()
}

#[unsafe(no_mangle)]
pub extern "C" fn tambolune_size_place() -> usize
    ensures { result ≡ size }
{
    exports::tambolune_size_place()
}

#[unsafe(no_mangle)]
pub extern "C" fn tambolune_size_buffer() -> usize
    ensures { result ≡ octets }
{
    exports::tambolune_size_buffer()
}

#[unsafe(no_mangle)]
pub extern "C" fn tambolune_size_numbers() -> usize
    ensures { result ≡ numbers_long }
{
    exports::tambolune_size_numbers()
}

#[unsafe(no_mangle)]
pub extern "C" fn tambolune_size_senders() -> usize
    ensures { result ≡ senders_len }
{
    exports::tambolune_size_senders()
}

#[unsafe(no_mangle)]
pub extern "C" fn tambolune_size_address() -> usize
    ensures { result ≡ address_long }
{
    exports::tambolune_size_address()
}

#[unsafe(no_mangle)]
pub extern "C" fn tambolune_size_description() -> usize
    ensures { result ≡ description_long }
{
    exports::tambolune_size_description()
}

#[unsafe(no_mangle)]
pub extern "C" fn tambolune_size_judged() -> usize
    ensures { result ≡ judged_long }
{
    exports::tambolune_size_judged()
}

#[unsafe(no_mangle)]
pub extern "C" fn tambolune_size_verdict() -> usize
    ensures { result ≡ verdict_long }
{
    exports::tambolune_size_verdict()
}

#[unsafe(no_mangle)]
pub extern "C" fn tambolune_size_written() -> usize
    ensures { result ≡ written_long }
{
    exports::tambolune_size_written()
}

#[unsafe(no_mangle)]
pub extern "C" fn tambolune_size_reply() -> usize
    ensures { result ≡ reply_long }
{
    exports::tambolune_size_reply()
}

#[unsafe(no_mangle)]
pub extern "C" fn tambolune_size_count() -> usize
    ensures { result ≡ count_long }
{
    exports::tambolune_size_count()
}

#[unsafe(no_mangle)]
pub extern "C" fn tambolune_size_sight() -> usize
    ensures { result ≡ sight_long }
{
    exports::tambolune_size_sight()
}

#[unsafe(no_mangle)]
pub extern "C" fn tambolune_size_compared() -> usize
    ensures { result ≡ compared_long }
{
    exports::tambolune_size_compared()
}

#[unsafe(no_mangle)]
pub extern "C" fn tambolune_size_entry() -> usize
    ensures { result ≡ 2 }
{
    exports::tambolune_size_entry()
}

#[unsafe(no_mangle)]
pub extern "C" fn tambolune_size_header() -> usize
    ensures { result ≡ 14 }
{
    exports::tambolune_size_header()
}
