// A description put into a lent output, field by field in the order of X5.
// Every function puts its octets behind what was put before; what does not fit is left out.
ghost use Rattle.std.specs.Prelude.{◌∷◌};
ghost use Rattle.output.specs.Output.{Put};
ghost use Rattle.octets.specs.Numbers.{two_octets};
ghost use Rattle.text.specs.Part.{parts_in};
ghost use Rattle.octet_description.specs.Octets.{part_octets, id_octets, optional_octets, table_octets, link_octets, sets_octets, flags_octets, parts_octets, front_octets, strings_octets, optional_fields_octets, system_octets, description_octets};

use ids::IdPart;
use octets::low_of;
use output::Output;
use reading::{Description, Link};
use system::{Capabilities, System};
use text::{Part, Parts, nth_part, part_count};

const ABSENT: u8 = 0;

const PRESENT: u8 = 1;

// The part that stands for an absent one.
const NOWHERE: Part = Part { start: 0, len: 0 };

// A number of two octets, high octet first.
pub fn put_two(out: &mut Output, n: usize)
    ensures { Put (two_octets n) out.old out.new }
{
    out.put_octet((n / 256 % 256) as u8);
    out.put_octet((n % 256) as u8);
}

fn put_part(out: &mut Output, p: Part)
    ensures { Put (part_octets p) out.old out.new }
{
    put_two(out, p.start);
    put_two(out, p.len);
}

// An octet and a part behind it: a subtype, or a presence.
fn put_marked(out: &mut Output, mark: u8, p: Part)
    ensures { Put (mark ∷ part_octets p) out.old out.new }
{
    out.put_octet(mark);
    put_part(out, p);
}

fn put_id(out: &mut Output, i: IdPart)
    ensures { Put (id_octets i) out.old out.new }
{
    put_marked(out, i.subtype, i.octets);
}

fn put_optional(out: &mut Output, o: Option<Part>)
    ensures { Put (optional_octets o) out.old out.new }
{
    match o {
        None => put_marked(out, ABSENT, NOWHERE),
        Some(p) => put_marked(out, PRESENT, p),
    }
}

fn put_table(out: &mut Output, mark: u8, l: Link)
    ensures { Put (mark ∷ table_octets l) out.old out.new }
{
    put_marked(out, mark, l.interface);
    put_part(out, l.port);
    put_part(out, l.addresses);
}

fn put_link(out: &mut Output, l: Option<Link>)
    ensures { Put (link_octets l) out.old out.new }
{
    match l {
        None => put_table(
            out,
            ABSENT,
            Link {
                interface: NOWHERE,
                port: NOWHERE,
                addresses: NOWHERE,
            },
        ),
        Some(t) => put_table(out, PRESENT, t),
    }
}

fn put_sets(out: &mut Output, mark: u8, c: Capabilities)
    ensures { Put (mark ∷ sets_octets c) out.old out.new }
{
    out.put_octet(mark);
    put_two(out, c.able as usize);
    put_two(out, c.enabled as usize);
}

fn put_flags(out: &mut Output, c: Option<Capabilities>)
    ensures { Put (flags_octets c) out.old out.new }
{
    match c {
        None => put_sets(
            out,
            ABSENT,
            Capabilities {
                able: 0,
                enabled: 0,
            },
        ),
        Some(flags) => put_sets(out, PRESENT, flags),
    }
}

// How many there are, and all four.
fn put_parts(out: &mut Output, l: Parts)
    ensures { Put (parts_octets (parts_in l)) out.old out.new }
{
    put_marked(out, low_of(part_count(l)), nth_part(l, 0));
    put_part(out, nth_part(l, 1));
    put_part(out, nth_part(l, 2));
    put_part(out, nth_part(l, 3));
}

// Chassis, port ID and seconds.
pub fn put_front(out: &mut Output, d: Description)
    ensures { Put (front_octets d) out.old out.new }
{
    put_id(out, d.chassis);
    put_id(out, d.port);
    put_two(out, d.seconds as usize);
}

fn put_strings(out: &mut Output, d: Description)
    ensures { Put (strings_octets d) out.old out.new }
{
    put_part(out, d.words);
    put_part(out, d.category);
    put_part(out, d.manufacturer);
    put_part(out, d.model);
    put_part(out, d.number);
}

fn put_optional_fields(out: &mut Output, d: Description)
    ensures { Put (optional_fields_octets d) out.old out.new }
{
    put_link(out, d.link);
    put_optional(out, d.extension);
    put_optional(out, d.list);
}

fn put_system(out: &mut Output, x: System)
    ensures { Put (system_octets x) out.old out.new }
{
    put_part(out, x.name);
    put_part(out, x.description);
    put_flags(out, x.capabilities);
    put_parts(out, x.management);
}

#[tactic(auto, unfolding(output::specs::Output::puts, crate::specs::Octets::description_octets))]
pub fn put_description(out: &mut Output, d: Description)
    ensures { Put (description_octets d) out.old out.new }
{
    put_front(out, d);
    put_strings(out, d);
    put_optional_fields(out, d);
    put_system(out, d.system);
}
