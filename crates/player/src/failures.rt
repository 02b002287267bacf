// Where a failure is said: on file descriptor 3, so that nothing but a failure makes the exit status 2 (J3); the script in front looks there.
// Where nobody looks there it is said on standard error.
use std::fs::{File, OpenOptions};
use std::io;
use std::io::{Read, Write};
use std::rt::Files;

const FAILURES: &str = "/dev/fd/3";

// What the system says of the descriptor.
const STATE: &str = "/proc/self/fdinfo/3";

// Whether the descriptor was opened for writing. The second line of its state ends in an octal digit, of which the two lower bits say so. A descriptor for
// reading alone, as of the capture itself, must not be opened a second time by its name: then the line would go into that file.
fn is_writable(rt: &impl Files) -> io::Result<bool> {
    let mut state = [0u8; 64];
    let n = File::open(rt, STATE)?.read(&mut state)?;
    let digit = state[..n]
        .split(|octet| *octet == b'\n')
        .nth(1)
        .and_then(|line| line.last().copied())
        .unwrap_or(b'0');
    Ok(digit % 4 != 0)
}

fn say(rt: &impl Files, line: &str) -> io::Result<bool> {
    if !is_writable(rt)? {
        return Ok(false);
    }
    let mut failures = OpenOptions::new().append(true).open(rt, FAILURES)?;
    failures.write_all(line.as_bytes())?;
    Ok(true)
}

// A line of what failed. Where standard error does not take it either, nobody can be told.
pub(crate) fn fail(rt: &(impl Files + Eprint), line: &str) {
    if !say(rt, line).unwrap_or(false) {
        let _ = eprint!(rt; "{line}");
    }
}
