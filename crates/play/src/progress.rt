// How far a large file has been read, on standard error (J3): from 8 MiB on, at every further MiB.
// Where nobody wants to know, the octets are counted and nothing is written.
const MIB: usize = 1048576;

const FIRST: usize = 8;

#[derive(Clone, Copy)]
pub(crate) struct Progress {
    pub(crate) wanted: bool,
    pub(crate) octets: usize,
}

pub(crate) fn nothing_read(wanted: bool) -> Progress {
    Progress { wanted, octets: 0 }
}

// The line goes over the one before it. Progress is not the answer: where standard error does not take it, the reading goes on.
fn say(rt: &impl Eprint, octets: usize) {
    let _ = eprint!(rt; "\r{octets} octets");
}

fn say_passed(rt: &impl Eprint, before: usize, octets: usize) {
    if octets / MIB >= FIRST && before / MIB < octets / MIB {
        say(rt, octets);
    }
}

// So many octets more have been read. The sum stops at the greatest number.
pub(crate) fn read_more(rt: &impl Eprint, p: Progress, n: usize) -> Progress {
    let octets = p.octets.saturating_add(n);
    if p.wanted {
        say_passed(rt, p.octets, octets);
    }
    Progress { octets, ..p }
}

// The last line is ended, where there was one.
pub(crate) fn end(rt: &impl Eprint, p: Progress) {
    if p.wanted && p.octets / MIB >= FIRST {
        let _ = eprintln!(rt;);
    }
}
