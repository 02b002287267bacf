// Whether every part of a description lies inside the text that is lent with it (W7).
// An empty part must lie inside too; a part that begins at the end of the text does.
#![tactic(auto)]

ghost use Rattle.std.specs.Prelude.{◌≡◌};
ghost use Rattle.tally.specs.Tests.{all};
ghost use Rattle.parts.specs.Inside.{part_inside, parts_inside, system_inside, link_inside, optional_inside, all_inside};

use reading::{Description, Link};
use system::System;
use text::{MOST_PARTS, Part, Parts};

// In a text of n octets.
fn part_inside(n: usize, p: Part) -> bool
    ensures { result ≡ part_inside n p }
{
    p.start <= n && p.len <= n - p.start
}

// Each part below the count; a count above the most says of parts that there are not (W7).
fn parts_inside(n: usize, l: Parts) -> bool
    ensures { result ≡ parts_inside n l }
{
    if l.count > MOST_PARTS {
        return false;
    }
    l.parts[..l.count].iter().all(|p| part_inside(n, *p))
}

fn system_inside(n: usize, x: System) -> bool
    ensures { result ≡ all (system_inside n x) }
{
    part_inside(n, x.name) && part_inside(n, x.description) && parts_inside(n, x.management)
}

// Absent link information has no part that could lie outside.
fn link_inside(n: usize, l: Option<Link>) -> bool
    ensures { result ≡ link_inside n l }
{
    let Some(t) = l else {
        return true;
    };
    part_inside(n, t.interface) && part_inside(n, t.port) && part_inside(n, t.addresses)
}

fn optional_inside(n: usize, o: Option<Part>) -> bool
    ensures { result ≡ optional_inside n o }
{
    o.is_none_or(|p| part_inside(n, p))
}

#[tactic(auto, unfolding(crate::specs::Inside::all_inside))]
pub fn all_inside(n: usize, d: Description) -> bool
    ensures { result ≡ all_inside n d }
{
    part_inside(n, d.chassis.octets)
        && part_inside(n, d.port.octets)
        && part_inside(n, d.words)
        && part_inside(n, d.category)
        && part_inside(n, d.manufacturer)
        && part_inside(n, d.model)
        && part_inside(n, d.number)
        && link_inside(n, d.link)
        && optional_inside(n, d.extension)
        && optional_inside(n, d.list)
        && system_inside(n, d.system)
}
