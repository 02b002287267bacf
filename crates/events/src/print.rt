// What the events print: the words of each answer, and the digest of a table with its buffer.
// An answer is made into numbers; a form says what stands between them.
use digest::digest_of;
use forms::put_form;
use output::Output;
use questions::Sight;
use refusal::Refusal;
use rules::Reply;
use std::io;
use table::Table;
use text::{Part, text_of};

// How a line begins and ends, a digest, and the answers; a form's number is its place among the forms below.
#[derive(Clone, Copy)]
pub(crate) enum Form {
    Call = 1,
    Spoiled,
    End,
    Digest,
    Done,
    Refused,
    Recorded,
    Refreshed,
    Gone,
    UnknownGoodbye,
    Holds,
    Nobody,
    Seen,
}

const FORMS: &[u8] =
    b"#|# spoiled|\n| #| done| refused #| recorded| refreshed| gone| unknown goodbye| holds #| nobody| place # interface #:# port #:#";

// More than the longest words.
const LINE: usize = 128;

// A form, with its marks filled in.
pub(crate) fn say(rt: &impl Print, form: Form, values: &[usize]) -> io::Result<()> {
    let mut room = [0u8; LINE];
    let mut line = Output::new(&mut room);
    put_form(&mut line, FORMS, form as usize, values, FORMS);
    rt.write_all(line.front())
}

fn say_refused(rt: &impl Print, refusal: Refusal) -> io::Result<()> {
    say(rt, Form::Refused, &[refusal as usize])
}

pub(crate) fn say_answer(rt: &impl Print, answer: Result<(), Refusal>) -> io::Result<()> {
    match answer {
        Ok(()) => say(rt, Form::Done, &[]),
        Err(refusal) => say_refused(rt, refusal),
    }
}

pub(crate) fn say_reply(rt: &impl Print, reply: Result<Reply, Refusal>) -> io::Result<()> {
    let form = match reply {
        Ok(Reply::Recorded) => Form::Recorded,
        Ok(Reply::Refreshed) => Form::Refreshed,
        Ok(Reply::Gone) => Form::Gone,
        Ok(Reply::UnknownGoodbye) => Form::UnknownGoodbye,
        Err(refusal) => return say_refused(rt, refusal),
    };
    say(rt, form, &[])
}

pub(crate) fn say_count(rt: &impl Print, count: Result<u8, Refusal>) -> io::Result<()> {
    match count {
        Ok(n) => say(rt, Form::Holds, &[n as usize]),
        Err(refusal) => say_refused(rt, refusal),
    }
}

// Of a number the count of octets and the value, since 00 06 is not 06 (A4).
pub(crate) fn say_sight(rt: &impl Print, seen: Result<Option<Sight>, Refusal>) -> io::Result<()> {
    match seen {
        Ok(Some(s)) => say(
            rt,
            Form::Seen,
            &[
                s.place,
                s.interface.octets as usize,
                s.interface.value as usize,
                s.port.octets as usize,
                s.port.value as usize,
            ],
        ),
        Ok(None) => say(rt, Form::Nobody, &[]),
        Err(refusal) => say_refused(rt, refusal),
    }
}

pub(crate) fn say_digest(rt: &impl Print, t: Table, buffer: &[u8]) -> io::Result<()> {
    say(rt, Form::Digest, &[digest_of(t, buffer) as usize])
}
