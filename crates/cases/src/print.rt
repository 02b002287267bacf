// What the cases print: answers and octets, in the one layout that the stored output has.
// An answer is made into numbers; a form says what stands between them.
use extension::{address_at, counts_of, item_at, pairing_at, port_item_at};
use forms::put_form;
use ids::IdPart;
use lldpdu::Outline;
use naming::Naming;
use output::Output;
use reading::{Description, Link, Reading};
use refusal::Refusal;
use std::io;
use system::System;
use text::{Part, Parts, nth_part, part_count, text_of};

// A form's number is its place among the forms below.
#[derive(Clone, Copy)]
pub(crate) enum Form {
    Refused = 1,
    Wrote,
    Output,
    AgainRefused,
    Again,
    OutlineRefused,
    OutlineValid,
    ReadingRefused,
    ReadingNo,
    ReadingYes,
    Strings,
    Link,
    Absent,
    Present,
    NoCapabilities,
    Capabilities,
    NoAddress,
    OneAddress,
    TwoAddresses,
    ThreeAddresses,
    FourAddresses,
    NamingRefused,
    NamingNone,
    Naming,
    Counts,
    Asked,
}

const FORMS: &[u8] =
    b"# refused #\n|# wrote #\n|# output % rest #\n|# again refused #\n|# again # %\n|# outline refused #\n|# outline valid # # % # % #\n|# reading refused #\n|# reading valid # no # % # % #|# reading valid # yes # % # % #| % % % % %| %/%/%| absent| %| % % absent| % % #/#| none\n| %\n| %/%\n| %/%/%\n| %/%/%/%\n|# naming refused #\n|# naming none\n|# naming # # # #\n|# extension %/% # # # # #| % % % %\n";

// More than the longest words, which spell out a buffer of 1,600 octets.
const LINE: usize = 4096;

// A form, with its marks filled in: with the values, and with octets of the text.
pub(crate) fn say(rt: &impl Print, form: Form, values: &[usize], text: &[u8]) -> io::Result<()> {
    let mut room = [0u8; LINE];
    let mut line = Output::new(&mut room);
    put_form(&mut line, FORMS, form as usize, values, text);
    rt.write_all(line.front())
}

pub(crate) fn say_refused(
    rt: &impl Print,
    form: Form,
    case: usize,
    refusal: Refusal,
) -> io::Result<()> {
    say(rt, form, &[case, refusal as usize], b"")
}

// What an outline and a reading both say of an announcement that is valid: its identity and its seconds.
fn say_identity(
    rt: &impl Print,
    form: Form,
    case: usize,
    length: usize,
    lldpdu: &[u8],
    chassis: IdPart,
    port: IdPart,
    seconds: u16,
) -> io::Result<()> {
    say(
        rt,
        form,
        &[
            case,
            length,
            chassis.subtype as usize,
            chassis.octets.start,
            chassis.octets.len,
            port.subtype as usize,
            port.octets.start,
            port.octets.len,
            seconds as usize,
        ],
        lldpdu,
    )
}

pub(crate) fn say_outline(
    rt: &impl Print,
    case: usize,
    lldpdu: &[u8],
    outline: Result<Outline, Refusal>,
) -> io::Result<()> {
    match outline {
        Ok(o) => say_identity(
            rt,
            Form::OutlineValid,
            case,
            o.octets,
            lldpdu,
            o.chassis,
            o.port,
            o.seconds,
        ),
        Err(refusal) => say_refused(rt, Form::OutlineRefused, case, refusal),
    }
}

fn say_part(rt: &impl Print, lldpdu: &[u8], part: Option<Part>) -> io::Result<()> {
    match part {
        Some(p) => say(rt, Form::Present, &[p.start, p.len], lldpdu),
        None => say(rt, Form::Absent, &[], lldpdu),
    }
}

fn say_link(rt: &impl Print, lldpdu: &[u8], link: Option<Link>) -> io::Result<()> {
    match link {
        Some(l) => say(
            rt,
            Form::Link,
            &[
                l.interface.start,
                l.interface.len,
                l.port.start,
                l.port.len,
                l.addresses.start,
                l.addresses.len,
            ],
            lldpdu,
        ),
        None => say(rt, Form::Absent, &[], lldpdu),
    }
}

// System name, system description and capabilities.
fn say_system(rt: &impl Print, lldpdu: &[u8], x: System) -> io::Result<()> {
    let (form, able, enabled) = match x.capabilities {
        Some(c) => (Form::Capabilities, c.able as usize, c.enabled as usize),
        None => (Form::NoCapabilities, 0, 0),
    };
    say(
        rt,
        form,
        &[
            x.name.start,
            x.name.len,
            x.description.start,
            x.description.len,
            able,
            enabled,
        ],
        lldpdu,
    )
}

// As many as there are, each in the form for that number.
fn say_management(rt: &impl Print, lldpdu: &[u8], l: Parts) -> io::Result<()> {
    let form = match part_count(l) {
        0 => Form::NoAddress,
        1 => Form::OneAddress,
        2 => Form::TwoAddresses,
        3 => Form::ThreeAddresses,
        _ => Form::FourAddresses,
    };
    let first = nth_part(l, 0);
    let second = nth_part(l, 1);
    let third = nth_part(l, 2);
    let fourth = nth_part(l, 3);
    say(
        rt,
        form,
        &[
            first.start,
            first.len,
            second.start,
            second.len,
            third.start,
            third.len,
            fourth.start,
            fourth.len,
        ],
        lldpdu,
    )
}

fn say_fields(rt: &impl Print, lldpdu: &[u8], d: Description) -> io::Result<()> {
    say(
        rt,
        Form::Strings,
        &[
            d.words.start,
            d.words.len,
            d.category.start,
            d.category.len,
            d.manufacturer.start,
            d.manufacturer.len,
            d.model.start,
            d.model.len,
            d.number.start,
            d.number.len,
        ],
        lldpdu,
    )?;
    say_link(rt, lldpdu, d.link)?;
    say_part(rt, lldpdu, d.extension)?;
    say_part(rt, lldpdu, d.list)?;
    say_system(rt, lldpdu, d.system)?;
    say_management(rt, lldpdu, d.system.management)
}

pub(crate) fn say_reading(
    rt: &impl Print,
    case: usize,
    lldpdu: &[u8],
    reading: Result<Reading, Refusal>,
) -> io::Result<()> {
    match reading {
        Ok(r) => {
            let d = r.description;
            let form = if r.htip {
                Form::ReadingYes
            } else {
                Form::ReadingNo
            };
            say_identity(
                rt, form, case, r.octets, lldpdu, d.chassis, d.port, d.seconds,
            )?;
            say_fields(rt, lldpdu, d)
        }
        Err(refusal) => say_refused(rt, Form::ReadingRefused, case, refusal),
    }
}

// What extension link information answers: its counts, then its address i with the item j, its pairing address i, its port's item j.
fn say_asked(rt: &impl Print, case: usize, content: &[u8], i: usize, j: usize) -> io::Result<()> {
    let c = counts_of(content);
    say(
        rt,
        Form::Counts,
        &[
            case,
            c.interface.start,
            c.interface.len,
            c.port.start,
            c.port.len,
            c.width as usize,
            c.addresses as usize,
            c.items as usize,
            c.pairings as usize,
            c.portitems as usize,
        ],
        content,
    )?;
    let address = address_at(content, i);
    let item = item_at(content, i, j);
    let pairing = pairing_at(content, i);
    let own = port_item_at(content, j);
    say(
        rt,
        Form::Asked,
        &[
            address.start,
            address.len,
            item.start,
            item.len,
            pairing.start,
            pairing.len,
            own.start,
            own.len,
        ],
        content,
    )
}

pub(crate) fn say_extension(
    rt: &impl Print,
    case: usize,
    lldpdu: &[u8],
    r: Reading,
    i: usize,
    j: usize,
) -> io::Result<()> {
    match r.description.extension {
        Some(p) => say_asked(rt, case, text_of(lldpdu, p), i, j),
        None => Ok(()),
    }
}

pub(crate) fn say_naming(
    rt: &impl Print,
    case: usize,
    lldpdu: &[u8],
    naming: Result<Option<Naming>, Refusal>,
) -> io::Result<()> {
    match naming {
        Ok(Some(n)) => say(
            rt,
            Form::Naming,
            &[
                case,
                n.interface.octets as usize,
                n.interface.value as usize,
                n.port.octets as usize,
                n.port.value as usize,
            ],
            lldpdu,
        ),
        Ok(None) => say(rt, Form::NamingNone, &[case], lldpdu),
        Err(refusal) => say_refused(rt, Form::NamingRefused, case, refusal),
    }
}
