// The announcement of a description, put TLV by TLV, each behind the one before it (W1).
// What does not fit, and what no octet can count, is left out.
#![tactic(auto, unfolding(output::specs::Output::puts, tlvs::specs::Tlvs::octets_of))]

ghost use Rattle.std.specs.Prelude.{map};
ghost use Rattle.output.specs.Output.{Put};
ghost use Rattle.reading.specs.Meaning.{link_meant, said_by};
ghost use Rattle.text.specs.Part.{texts_of, optional_text};
ghost use Rattle.system.specs.System.{flags_meant, system_meant};
ghost use Rattle.tlvs.specs.Tlvs.{octets_of, management_tlv, if_flagged, if_linked, if_extended, if_listed, countable_link, countable_list};
ghost use Rattle.announcement.specs.Encode.{system_tlvs, device_tlvs, field_tlvs, encode, countable_of};

use output::Output;
use reading::{Description, Link};
use system::{Capabilities, System};
use text::{Part, Parts, part_count, text_of};
use tlvs::{
    put_device, put_extended, put_flags, put_head, put_id, put_listed, put_seconds, put_string,
    put_table, put_tlv,
};

// The types of TLVs 1 and 2 (L3, L4).
const CHASSIS: u8 = 1;

const PORT: u8 = 2;

// The types of the port description and of the system fields (T10, S1, S3).
const PORT_DESCRIPTION: u8 = 4;

const SYSTEM_NAME: u8 = 5;

const SYSTEM_DESCRIPTION: u8 = 6;

const MANAGEMENT: u8 = 8;

fn put_capabilities(out: &mut Output, c: Option<Capabilities>)
    ensures { Put (octets_of (if_flagged (flags_meant c))) out.old out.new }
{
    match c {
        None => {}
        Some(flags) => put_flags(out, flags.able, flags.enabled),
    }
}

// The management addresses, in their order.
fn put_management(out: &mut Output, text: &[u8], l: Parts)
    ensures { Put (octets_of (map management_tlv (texts_of text.now l))) out.old out.new }
{
    for p in &l.parts[..part_count(l)] {
        put_tlv(out, MANAGEMENT, text_of(text, *p));
    }
}

// The system fields, in order of type (S1 to S3).
fn put_system(out: &mut Output, text: &[u8], x: System)
    ensures { Put (octets_of (system_tlvs (system_meant text.now x))) out.old out.new }
{
    put_string(out, SYSTEM_NAME, text, x.name);
    put_string(out, SYSTEM_DESCRIPTION, text, x.description);
    put_capabilities(out, x.capabilities);
    put_management(out, text, x.management);
}

fn put_link(out: &mut Output, text: &[u8], l: Option<Link>)
    ensures { Put (octets_of (if_linked (countable_link (link_meant text.now l)))) out.old out.new }
{
    match l {
        None => {}
        Some(t) => put_table(
            out,
            text_of(text, t.interface),
            text_of(text, t.port),
            text_of(text, t.addresses),
        ),
    }
}

fn put_extension(out: &mut Output, text: &[u8], e: Option<Part>)
    ensures { Put (octets_of (if_extended (optional_text text.now e))) out.old out.new }
{
    match e {
        None => {}
        Some(p) => put_extended(out, text_of(text, p)),
    }
}

fn put_list(out: &mut Output, text: &[u8], l: Option<Part>)
    ensures { Put (octets_of (if_listed (countable_list (optional_text text.now l)))) out.old out.new }
{
    match l {
        None => {}
        Some(a) => put_listed(out, text_of(text, a)),
    }
}

// The device information of IDs 1 to 4 (T3).
fn put_devices(out: &mut Output, text: &[u8], d: Description)
    ensures { Put (octets_of (device_tlvs (countable_of (said_by text.now d)))) out.old out.new }
{
    put_device(out, 1, text, d.category);
    put_device(out, 2, text, d.manufacturer);
    put_device(out, 3, text, d.model);
    put_device(out, 4, text, d.number);
}

// All TLVs behind the first three, but for End.
fn put_fields(out: &mut Output, text: &[u8], d: Description)
    ensures { Put (octets_of (field_tlvs (countable_of (said_by text.now d)))) out.old out.new }
{
    put_string(out, PORT_DESCRIPTION, text, d.words);
    put_system(out, text, d.system);
    put_devices(out, text, d);
    put_link(out, text, d.link);
    put_extension(out, text, d.extension);
    put_list(out, text, d.list);
}

pub fn put_lldpdu(out: &mut Output, text: &[u8], d: Description)
    ensures { Put (encode (countable_of (said_by text.now d))) out.old out.new }
{
    put_id(out, CHASSIS, text, d.chassis);
    put_id(out, PORT, text, d.port);
    put_seconds(out, d.seconds);
    put_fields(out, text, d);
    put_head(out, 0, 0);
}
