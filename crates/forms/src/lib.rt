// Forms of what is printed: words with marks in them, which numbers and octets of a text are filled in for.
// A form is chosen by its number among several; any forms, values and text get their line.
#![tactic(auto)]

ghost use Rattle.std.specs.Prelude.{◌≡◌, drop, get_or};
ghost use Rattle.text.specs.Part.{part, text_of};
ghost use Rattle.output.specs.Output.{Put};
ghost use Rattle.forms.specs.Form.{stands_for, values_taken, forms_left, formed};

use line::{put_chassis, put_hexes, put_joined, put_number};
use output::Output;
use text::{Part, text_of};

// The marks, and the octet between two forms. None of the five can be printed as it stands.
const NUMBER: u8 = b'#';

const HEX: u8 = b'%';

const JOINED: u8 = b'~';

const CHASSIS: u8 = b'@';

const NEXT: u8 = b'|';

// The value at a place, 0 past the end.
fn value_at(values: &[usize], k: usize) -> usize
    ensures { result ≡ get_or values.now k 0 }
{
    values.get(k).copied().unwrap_or(0)
}

// The values behind the first n.
fn values_behind(values: &[usize], n: usize) -> &[usize]
    ensures { result.now ≡ drop n values.now }
{
    values.get(n..).unwrap_or(&[])
}

// How many values an octet of the forms takes, where so many forms are left.
#[tactic(auto, unfolding(crate::specs::Form::values_taken))]
fn values_taken(left: usize, mark: u8) -> usize
    ensures { result ≡ values_taken left mark }
{
    match mark {
        _ if left != 1 => 0,
        NUMBER => 1,
        HEX | JOINED => 2,
        CHASSIS => 3,
        _ => 0,
    }
}

// How many forms are left behind an octet, where so many were left at it.
#[tactic(auto, unfolding(crate::specs::Form::forms_left))]
fn forms_left(left: usize, mark: u8) -> usize
    ensures { result ≡ forms_left left mark }
{
    if mark == NEXT {
        left.saturating_sub(1)
    } else {
        left
    }
}

fn part_of(text: &[u8], start: usize, len: usize) -> &[u8]
    ensures { result.now ≡ text_of text.now (part start len) }
{
    text_of(text, Part { start, len })
}

// What an octet of the forms stands for, given the next three values.
#[tactic(auto, unfolding(crate::specs::Form::stands_for, output::specs::Output::puts))]
fn put_mark(
    line: &mut Output,
    left: usize,
    mark: u8,
    first: usize,
    second: usize,
    third: usize,
    text: &[u8],
)
    ensures { Put (stands_for left mark first second third text.now) line.old line.new }
{
    if left != 1 {
        return;
    }
    match mark {
        NEXT => {}
        NUMBER => put_number(line, first as u64),
        HEX => put_hexes(line, part_of(text, first, second)),
        JOINED => put_joined(line, part_of(text, first, second)),
        CHASSIS => put_chassis(line, first, part_of(text, second, third)),
        _ => line.put_octet(mark),
    }
}

// One of several forms, counted from 1, which are divided by `|`. In a form `#` stands for a value in decimal, `%` for a
// part of the text in hex, or a full stop where it has no octets, `~` for a part in hex joined by `-`, `@` for a chassis.
// The start and the length of a part are two values; a chassis has its subtype before them. All else is put as it stands.
pub fn put_form(line: &mut Output, forms: &[u8], which: usize, values: &[usize], text: &[u8])
    ensures { Put (formed forms.now which values.now text.now) line.old line.new }
{
    let mut left = which;
    let mut rest = values;
    for &mark in forms {
        put_mark(
            line,
            left,
            mark,
            value_at(rest, 0),
            value_at(rest, 1),
            value_at(rest, 2),
            text,
        );
        rest = values_behind(rest, values_taken(left, mark));
        left = forms_left(left, mark);
    }
}
