// What a look at a capture is printed as: a line for each used place of its table (J3), a line for each change between two (J4), or the refusal.
// Where standard output does not take a line, that is the answer of each function, and behind that line there is none.
ghost use Rattle.std.specs.Prelude.{◌<◌};
ghost use Rattle.numbers.specs.Sizes.{places};

use forms::put_form;
use lldpdu::{chassis_of, port_of};
use numbers::{PLACES, Table};
use output::Output;
use place::lldpdu_at;
use play::Seen;
use std::io;

// More than the longest line, which has 879 octets (J4): seven for the word, two for the port, five for the seconds in each table, 70 for a local
// chassis (L3), one for a subtype and 764 for a port ID of 255 octets (L4), 17 for a sender, seven spaces and its end.
pub(crate) const LINE: usize = 1024;

pub(crate) fn say_refusal(rt: &impl Print, refusal: u8) -> io::Result<()> {
    let mut room = [0u8; LINE];
    let mut line = Output::new(&mut room);
    let form = b"refused #\n";
    put_form(&mut line, form, 1, &[refusal as usize], form);
    rt.write_all(line.front())
}

// A call of its own, so that the number of octets is known.
fn put_sender(line: &mut Output, sender: [u8; 6]) {
    put_form(line, b"~\n", 1, &[0, 6], &sender);
}

// What every line ends with: chassis, port ID and sender of the record in place i.
pub(crate) fn put_neighbour(line: &mut Output, t: Table, buffer: &[u8], i: usize)
    requires { i < places }
{
    let lldpdu = lldpdu_at(buffer, i, t.length[i]);
    let chassis = chassis_of(lldpdu);
    let id = port_of(lldpdu);
    let values = [
        chassis.subtype as usize,
        chassis.octets.start,
        chassis.octets.len,
        id.subtype as usize,
        id.octets.start,
        id.octets.len,
    ];
    put_form(line, b"@ # ~ ", 1, &values, lldpdu);
    put_sender(line, t.sender[i].octets);
}

// Port and seconds left, then the neighbour; of a free place nothing.
fn show_place(rt: &impl Print, t: Table, buffer: &[u8], i: usize) -> io::Result<()>
    requires { i < places }
{
    if t.length[i] == 0 {
        return Ok(());
    }
    let mut room = [0u8; LINE];
    let mut line = Output::new(&mut room);
    let form = b"# # ";
    let values = [t.port[i] as usize, t.seconds[i] as usize];
    put_form(&mut line, form, 1, &values, form);
    put_neighbour(&mut line, t, buffer, i);
    rt.write_all(line.front())
}

fn show_places(rt: &impl Print, t: Table, buffer: &[u8]) -> io::Result<()> {
    for i in 0..PLACES {
        show_place(rt, t, buffer, i)?;
    }
    Ok(())
}

// One look (J3).
pub(crate) fn show_table(rt: &impl Print, seen: Seen, buffer: &[u8]) -> io::Result<()> {
    match seen.answer {
        Ok(_) => show_places(rt, seen.table, buffer),
        Err(refusal) => say_refusal(rt, refusal),
    }
}
