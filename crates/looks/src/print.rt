// What a comparison prints: the number of its record, the answer, and all octets of the list behind the call.
// A frame prints the number of its record and the answer. A form says what stands between them.
use forms::put_form;
use output::Output;
use refusal::Refusal;
use rules::Reply;
use std::io;

// More than the longest line: three octets for each of a list of 256, and the words in front of them.
const LINE: usize = 1024;

// An answer and, behind it, the list: one that has octets, or one that has none. A form's number is its place among the forms below.
#[derive(Clone, Copy)]
enum Form {
    Listed = 1,
    Refused,
    Recorded,
    Refreshed,
    Gone,
    UnknownGoodbye,
    Octets,
    NoOctets,
}

const FORMS: &[u8] =
    b"# listed #|# refused #|# recorded|# refreshed|# gone|# unknown goodbye| ~\n|\n";

fn put(line: &mut Output, form: Form, values: &[usize], list: &[u8]) {
    put_form(line, FORMS, form as usize, values, list);
}

fn say_form(rt: &impl Print, form: Form, values: &[usize], list: &[u8]) -> io::Result<()> {
    let mut room = [0u8; LINE];
    let mut line = Output::new(&mut room);
    let behind = if list.is_empty() {
        Form::NoOctets
    } else {
        Form::Octets
    };
    put(&mut line, form, values, list);
    put(&mut line, behind, &[0, list.len()], list);
    rt.write_all(line.front())
}

fn say_refused(rt: &impl Print, number: usize, refusal: Refusal, list: &[u8]) -> io::Result<()> {
    say_form(rt, Form::Refused, &[number, refusal as usize], list)
}

pub(crate) fn say(
    rt: &impl Print,
    number: usize,
    compared: Result<usize, Refusal>,
    list: &[u8],
) -> io::Result<()> {
    match compared {
        Ok(n) => say_form(rt, Form::Listed, &[number, n], list),
        Err(refusal) => say_refused(rt, number, refusal, list),
    }
}

// A frame has no list.
pub(crate) fn say_reply(
    rt: &impl Print,
    number: usize,
    reply: Result<Reply, Refusal>,
) -> io::Result<()> {
    let form = match reply {
        Ok(Reply::Recorded) => Form::Recorded,
        Ok(Reply::Refreshed) => Form::Refreshed,
        Ok(Reply::Gone) => Form::Gone,
        Ok(Reply::UnknownGoodbye) => Form::UnknownGoodbye,
        Err(refusal) => return say_refused(rt, number, refusal, b""),
    };
    say_form(rt, form, &[number], b"")
}
