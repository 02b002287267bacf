// looks: compares stored pairs of tables, hears stored frames on them, and prints each answer, to be compared with the stored output.
// The output was made by the independent program in twin/; nothing of it comes from this one.
#![tactic(auto)]

mod desk;
mod print;
mod record;

use desk::{STORE, run, two_empty};
use input::{read_file, split_behind, zeros};
use record::{HEAD, octets_behind, record_at};
use std::io;

// More octets than the file has.
const FILE: usize = 2000000;

// Of no file are as many records looked at; the stored one has fewer.
const RECORDS: usize = 100000;

fn run_all(rt: &impl Print, file: &[u8], store: &mut [u8], store2: &mut [u8]) -> io::Result<()> {
    let mut sides = two_empty();
    let mut rest = file;
    for number in 1..RECORDS {
        if rest.is_empty() {
            break;
        }
        let r = record_at(rest);
        let (octets, behind) = split_behind(rest, HEAD, octets_behind(r));
        sides = run(rt, number, r, sides, octets, store, store2)?;
        rest = behind;
    }
    Ok(())
}

fn main(rt: HostRuntime) -> io::Result<()> {
    let mut file = zeros::<FILE>();
    let Some(n) = read_file(&rt, "looks", &mut file)? else {
        return Ok(());
    };
    let mut first = zeros::<STORE>();
    let mut second = zeros::<STORE>();
    run_all(&rt, &file[..n], &mut first, &mut second)
}
