// judge: reads one frame from standard input and says what it announces, in four lines, or `refused ` and the number (J1).
// The reader decides everything; this program only reads, fills in a form and writes the answer at once.
#![tactic(auto)]

use forms::put_form;
use input::read_front;
use output::Output;
use reader::read_frame;
use reading::Reading;
use std::io;
use text::{Part, text_of};

// The parts of a reading count from the octet behind the header (F1).
const LLDPDU: Part = Part {
    start: 14,
    len: 1500,
};

// More than the longest answer, whose port ID has 255 octets (L4).
const ROOM: usize = 1024;

// A form's number is its place among the forms below.
#[derive(Clone, Copy)]
enum Form {
    Htip = 1,
    NoHtip,
    Refused,
}

const FORMS: &[u8] =
    b"chassis @\nport # ~\nseconds #\nhtip yes\n|chassis @\nport # ~\nseconds #\nhtip no\n|refused #\n";

fn put(line: &mut Output, form: Form, values: &[usize], text: &[u8]) {
    put_form(line, FORMS, form as usize, values, text);
}

fn put_reading(line: &mut Output, lldpdu: &[u8], r: Reading) {
    let d = r.description;
    let form = if r.htip { Form::Htip } else { Form::NoHtip };
    let values = [
        d.chassis.subtype as usize,
        d.chassis.octets.start,
        d.chassis.octets.len,
        d.port.subtype as usize,
        d.port.octets.start,
        d.port.octets.len,
        d.seconds as usize,
    ];
    put(line, form, &values, lldpdu);
}

fn put_answer(line: &mut Output, frame: &[u8]) {
    match read_frame(frame) {
        Ok(r) => put_reading(line, text_of(frame, LLDPDU), r),
        Err(refusal) => put(line, Form::Refused, &[refusal as usize], frame),
    }
}

// One octet more than the longest frame, so that a longer input shows as one (F1).
fn main(rt: HostRuntime) -> io::Result<()> {
    let mut frame = [0u8; 1515];
    let n = read_front(rt.stdin(), &mut frame)?;
    let mut room = [0u8; ROOM];
    let mut line = Output::new(&mut room);
    put_answer(&mut line, &frame[..n]);
    // A pipe that nobody reads any more is no failure.
    match rt.write_all(line.front()) {
        Err(e) if e.kind() == io::ErrorKind::BrokenPipe => Ok(()),
        written => written,
    }
}
