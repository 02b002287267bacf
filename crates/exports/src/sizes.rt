// The sizes (X2), for a caller to compare its header with.
// Each takes nothing and returns a number of octets, of ports or of places.
ghost use Rattle.std.specs.Prelude.{◌≡◌};
ghost use Rattle.numbers.specs.Sizes.{ports, places};
ghost use Rattle.place.specs.State.{size, octets};
ghost use Rattle.octet_table.specs.Lent.{numbers_long, senders_len};
ghost use Rattle.octet_description.specs.Octets.{size as description_long};
ghost use Rattle.octet_answers.specs.Answers.{judged_long, verdict_long, written_long, reply_long, count_long, sight_long, compared_long};
ghost use Rattle.exports.specs.Calls.{address_long};

use crate::calls::ADDRESS;
use compare::ENTRY;
use numbers::{PLACES, PORTS};
use octet_answers::{COMPARED, COUNT, JUDGED, REPLY, SIGHT, VERDICT, WRITTEN};
use octet_table::{NUMBERS, SENDERS};
use place::OCTETS;
use reader::HEADER;

pub fn tambolune_size_ports() -> usize
    ensures { result ≡ ports }
{
    PORTS
}

pub fn tambolune_size_places() -> usize
    ensures { result ≡ places }
{
    PLACES
}

pub fn tambolune_size_place() -> usize
    ensures { result ≡ size }
{
    place::SIZE
}

pub fn tambolune_size_buffer() -> usize
    ensures { result ≡ octets }
{
    OCTETS
}

pub fn tambolune_size_numbers() -> usize
    ensures { result ≡ numbers_long }
{
    NUMBERS
}

pub fn tambolune_size_senders() -> usize
    ensures { result ≡ senders_len }
{
    SENDERS
}

pub fn tambolune_size_address() -> usize
    ensures { result ≡ address_long }
{
    ADDRESS
}

pub fn tambolune_size_description() -> usize
    ensures { result ≡ description_long }
{
    octet_description::SIZE
}

pub fn tambolune_size_judged() -> usize
    ensures { result ≡ judged_long }
{
    JUDGED
}

pub fn tambolune_size_verdict() -> usize
    ensures { result ≡ verdict_long }
{
    VERDICT
}

pub fn tambolune_size_written() -> usize
    ensures { result ≡ written_long }
{
    WRITTEN
}

pub fn tambolune_size_reply() -> usize
    ensures { result ≡ reply_long }
{
    REPLY
}

pub fn tambolune_size_count() -> usize
    ensures { result ≡ count_long }
{
    COUNT
}

pub fn tambolune_size_sight() -> usize
    ensures { result ≡ sight_long }
{
    SIGHT
}

pub fn tambolune_size_compared() -> usize
    ensures { result ≡ compared_long }
{
    COMPARED
}

pub fn tambolune_size_entry() -> usize
    ensures { result ≡ 2 }
{
    ENTRY
}

pub fn tambolune_size_header() -> usize
    ensures { result ≡ 14 }
{
    HEADER
}
