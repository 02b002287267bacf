// events: runs the stored events on the table and prints each answer with a digest, to be compared with the stored output.
// The output was made by the independent program in twin/; nothing of it comes from this one.
#![tactic(auto)]

mod answers;
mod desk;
mod print;
mod record;

use desk::{lent_behind, run};
use input::{read_file, split_behind, zeros};
use record::{HEAD, record_at};
use std::io;
use table::{OCTETS, empty_table};

// More octets than the file has.
const FILE: usize = 1440000;

// Octets that buffers are lent from: more than a table needs, so that a buffer can be too long.
const STORE: usize = OCTETS + 2000;

// Kind 13 keeps the table beside its store, and kind 14 takes both back.
fn run_all(rt: &impl Print, file: &[u8], store: &mut [u8], kept: &mut [u8]) -> io::Result<()> {
    let mut t = empty_table();
    let mut kept_table = t;
    let mut lent = OCTETS;
    let mut rest = file;
    for case in 1.. {
        if rest.is_empty() {
            break;
        }
        let r = record_at(rest);
        let (frame, behind) = split_behind(rest, HEAD, r.length);
        let left = run(rt, case, r, t, lent, frame, store, kept)?;
        if r.kind == 13 {
            kept_table = t;
        }
        t = if r.kind == 14 { kept_table } else { left };
        lent = lent_behind(r, lent);
        rest = behind;
    }
    Ok(())
}

fn main(rt: HostRuntime) -> io::Result<()> {
    let mut file = zeros::<FILE>();
    let Some(n) = read_file(&rt, "events", &mut file)? else {
        return Ok(());
    };
    let mut store = zeros::<STORE>();
    let mut kept = zeros::<STORE>();
    run_all(&rt, &file[..n], &mut store, &mut kept)
}
