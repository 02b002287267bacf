// cases: runs the stored cases and prints every field of every answer, to be compared with the stored output.
// The output was made by the independent program in twin/; nothing of it comes from this one.
#![tactic(auto)]

mod announcements;
mod frames;
mod print;

use input::{read_file, zeros};
use std::io;
use std::rt::Files;

// No file has more octets.
const FILE: usize = 1200000;

// Of no file are as many cases run; the stored ones have fewer.
const CASES: usize = 10000;

fn run_all(rt: &impl Print, announced: bool, file: &[u8]) -> io::Result<()> {
    let mut rest = file;
    for case in 1..CASES {
        if rest.is_empty() {
            break;
        }
        rest = if announced {
            announcements::run_case(rt, case, rest)?
        } else {
            frames::run_case(rt, case, rest)?
        };
    }
    Ok(())
}

fn run(rt: &(impl Files + Print + Eprint), announced: bool, name: &str) -> io::Result<()> {
    let mut file = zeros::<FILE>();
    match read_file(rt, name, &mut file)? {
        Some(n) => run_all(rt, announced, &file[..n]),
        None => Ok(()),
    }
}

fn main(rt: HostRuntime) -> io::Result<()> {
    run(&rt, false, "frames")?;
    run(&rt, true, "announcements")
}
