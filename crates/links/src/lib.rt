// Link information (T7): whether an information string is well formed as one, and whether it names an address (A4).
// They look at one information string and at nothing behind it; any octets get an answer. `among` asks the same of a row of addresses in any octets.
#![tactic(auto)]

ghost use Rattle.std.specs.Prelude.{◌≡◌, false, ◌+◌, ◌*◌, ◌≤◌, length, get_or};
ghost use Rattle.octets.specs.Address.{six_at, same_octets};
ghost use Rattle.links.specs.Link.{four_ok, link_ok, names_of};
ghost use Rattle.links.specs.Row.{among_of};

use octets::{octet, same_six, six};

// The count of octets of an interface type or of a port number (T7, T11).
pub fn one_to_four(n: usize) -> bool
    ensures { result ≡ four_ok n }
{
    matches!(n, 1..=4)
}

// Link information (T7): n, interface type, m, port number, k, k addresses, and no octet more.
pub fn link_fits(part: &[u8]) -> bool
    ensures { result ≡ link_ok part.now }
{
    let n = octet(part, 4) as usize;
    if !one_to_four(n) {
        return false;
    }
    let m = octet(part, 5 + n) as usize;
    if !one_to_four(m) {
        return false;
    }
    let k = octet(part, 6 + n + m) as usize;
    part.len() == 7 + n + m + 6 * k
}

// Four octets from a place on as one number, the first lowest: in this order the compiler makes one read of them.
fn four_at(s: &[u8], at: usize) -> u64
    requires { at + 4 ≤ length s.now }
    ensures { result ≡ get_or s.now at 0 + get_or s.now (at + 1) 0 * 256 + get_or s.now (at + 2) 0 * 65536 + get_or s.now (at + 3) 0 * 16777216 }
{
    u64::from(u32::from_le_bytes([s[at], s[at + 1], s[at + 2], s[at + 3]]))
}

// An address as one number, its first octet lowest.
fn number_of(a: [u8; 6]) -> u64
    ensures { result ≡ get_or a 0 0 + get_or a 1 0 * 256 + get_or a 2 0 * 65536 + get_or a 3 0 * 16777216 + get_or a 4 0 * 4294967296 + get_or a 5 0 * 1099511627776 }
{
    u64::from_le_bytes([a[0], a[1], a[2], a[3], a[4], a[5], 0, 0])
}

// Whether the address stands at a place. Two octets in front of it are read with it and dropped: eight are one read, six are two.
fn same_at(s: &[u8], at: usize, address: [u8; 6]) -> bool
    requires le_at { 2 ≤ at }
    requires at_in_bounds { at + 6 ≤ length s.now }
    ensures { result ≡ same_octets (six_at s.now at) address }
{
    let eight = four_at(s, at - 2) + four_at(s, at + 2) * 4294967296;
    eight / 65536 == number_of(address)
}

// How many of the addresses in a row are passed, four a turn, because none of them is the one asked for. How many decides nothing but the time:
// what is left is looked at one by one. The turns of four are measured, and edits hold them (turn_past_the_last_address, fourth_of_a_turn_unseen).
fn passed(s: &[u8], first: usize, count: usize, address: [u8; 6]) -> usize
    requires le_first { 2 ≤ first }
    requires count_in_bounds { first + 6 * count ≤ length s.now }
    ensures { (result ≤ count) × (among_of s.now first result address ≡ false) }
{
    let mut i = 0;
    while 4 <= count - i {
        let at = first + 6 * i;
        if same_at(s, at, address) {
            return i;
        }
        if same_at(s, at + 6, address) {
            return i + 1;
        }
        if same_at(s, at + 12, address) {
            return i + 2;
        }
        if same_at(s, at + 18, address) {
            return i + 3;
        }
        i += 4;
    }
    i
}

// Whether the address is one of those in a row that is there to its end.
fn in_row(s: &[u8], first: usize, count: usize, address: [u8; 6]) -> bool
    requires le_first { 2 ≤ first }
    requires count_in_bounds { first + 6 * count ≤ length s.now }
    ensures { result ≡ among_of s.now first count address }
{
    for i in passed(s, first, count, address)..count {
        if same_at(s, first + 6 * i, address) {
            return true;
        }
    }
    false
}

// The same for a row that need not be there to its end, octet by octet; what is not there counts as 0.
fn one_by_one(s: &[u8], first: usize, count: usize, address: [u8; 6]) -> bool
    requires first_bound { first ≤ 65535 }
    requires count_bound { count ≤ 255 }
    ensures { result ≡ among_of s.now first count address }
{
    for i in 0..count {
        if same_six(six(s, first + 6 * i), address) {
            return true;
        }
    }
    false
}

// Whether the address is one of so many in a row from a place on (A4). With a place of sixteen bits and a count of eight bits no sum wraps.
pub fn among(s: &[u8], first: u16, count: u8, address: [u8; 6]) -> bool
    ensures { result ≡ among_of s.now first count address }
{
    let from = usize::from(first);
    let k = usize::from(count);
    if from < 2 || s.len() < from + 6 * k {
        return one_by_one(s, from, k, address);
    }
    in_row(s, from, k, address)
}

// Whether the address is one of those in the information string of a link information field (A4). It does not call `among`: the compiler
// then builds the comparison in, which counts where a table is short.
pub fn names(part: &[u8], address: [u8; 6]) -> bool
    ensures { result ≡ names_of part.now address }
{
    let n = octet(part, 4) as usize;
    let m = octet(part, 5 + n) as usize;
    let k = octet(part, 6 + n + m) as usize;
    let first = 7 + n + m;
    if k == 0 {
        return false;
    }
    if part.len() < first + 6 * k {
        return one_by_one(part, first, k, address);
    }
    in_row(part, first, k, address)
}
