// Extension link information (T11): whether its octets are well formed, what they say where they are asked (A6), and whether
// they name an address (A4). The octets are its content, n to the last item; any octets get an answer, and nothing is copied.
#![tactic(auto)]

ghost use Rattle.std.specs.Prelude.{◌≡◌, ◌+◌, ◌*◌, ◌^◌, ◌<◌, ◌≤◌, drop};
ghost use Rattle.text.specs.Part.{nowhere};
ghost use Rattle.extension.specs.Runs.{span};
ghost use Rattle.extension.specs.Layout.{item_place, entry_size, width_ok, end_ok, extension_ok, extension_names};
ghost use Rattle.extension.specs.Asked.{opening_of, closing_of, item_part, address_at, item_at, pairing_at, port_item_at, table_of, address_of, item_of, pairing_of, port_item_of, Answers, Counted};

use links::{among, one_to_four};
use octets::{octet, same_six, six};
use text::Part;

// The items of an address that edition 3.0 names, by their number (T12).
pub const SIGNAL_STRENGTH: usize = 0;

pub const ERROR_RATE: usize = 1;

pub const RESPONSE_TIME: usize = 2;

pub const LINK_QUALITY: usize = 3;

pub const RETRANSMISSIONS: usize = 4;

pub const CPU_USAGE: usize = 5;

pub const MEMORY_USAGE: usize = 6;

pub const HDD_USAGE: usize = 7;

pub const BATTERY_LEVEL: usize = 8;

// The items of a port that edition 3.0 names (T12).
pub const CHANNEL_USAGE: usize = 0;

pub const ASSOCIATED_DEVICES: usize = 1;

pub const ACTIVE_NODES: usize = 2;

// Interface type and port number, and p, k, c, q and d (T11).
#[derive(Clone, Copy)]
pub struct Counts {
    pub interface: Part,
    pub port: Part,
    pub width: u8,
    pub addresses: u8,
    pub items: u8,
    pub pairings: u8,
    pub portitems: u8,
}

// Where the addresses with their items begin, and p, k and c, which stand before them.
#[derive(Clone, Copy)]
struct Opening {
    at: usize,
    width: u8,
    addresses: u8,
    items: u8,
}

// Where the pairing addresses begin, and d and q, which stand before them.
#[derive(Clone, Copy)]
struct Closing {
    at: usize,
    portitems: u8,
    pairings: u8,
}

// Where so many items end that begin at a place. Past the end each has one octet, so that a count alone costs no time.
fn items_end(t: &[u8], from: usize, count: usize) -> usize
    requires from_bound { from < 2 ^ 62 }
    requires count_bound { count ≤ 255 }
    ensures { (result ≡ item_place t.now from count) × (result ≤ from + 256 * count) }
{
    let mut at = from;
    for i in 0..count {
        if at >= t.len() {
            return at + (count - i);
        }
        at += 1 + octet(t, at) as usize;
    }
    at
}

// Where so many addresses of p octets, each with its items, end that begin at a place.
fn entries_end(t: &[u8], h: Opening, count: usize) -> usize
    requires at_bound { h.at < 2 ^ 60 }
    requires count_bound { count ≤ 255 }
    ensures { (result ≡ h.at + span (entry_size h.width h.items) count (drop h.at t.now)) × (result ≤ h.at + 65536 * count) }
{
    let mut at = h.at;
    for i in 0..count {
        let items = at + h.width as usize;
        at = items_end(t, items, h.items as usize);
    }
    at
}

fn opening_of(t: &[u8]) -> Opening
    ensures { (result ≡ opening_of t.now) × (result.at ≤ 515) }
{
    let n = octet(t, 0) as usize;
    let m = octet(t, 1 + n) as usize;
    let at = 2 + n + m;
    let width = octet(t, at);
    let addresses = octet(t, at + 1);
    let items = octet(t, at + 2);
    Opening {
        at: at + 3,
        width,
        addresses,
        items,
    }
}

fn closing_of(t: &[u8], h: Opening) -> Closing
    requires h_value { h ≡ opening_of t.now }
    requires at_bound { h.at ≤ 515 }
    ensures { (result ≡ closing_of t.now) × (result.at < 2 ^ 32) }
{
    let at = entries_end(t, h, h.addresses as usize);
    let portitems = octet(t, at);
    let pairings = octet(t, at + 1);
    Closing {
        at: at + 2,
        portitems,
        pairings,
    }
}

// A length of 0 is no address (T11).
fn width_fits(width: u8, addresses: u8, pairings: u8) -> bool
    ensures { result ≡ width_ok width addresses pairings }
{
    width >= 1 || (addresses == 0 && pairings == 0)
}

// Whether the last item of the port ends where the octets end.
fn ends_there(t: &[u8], h: Opening, e: Closing) -> bool
    requires h_value { h ≡ opening_of t.now }
    requires e_value { e ≡ closing_of t.now }
    requires at_bound { e.at < 2 ^ 32 }
    ensures { result ≡ end_ok t.now }
{
    let pairings = e.pairings as usize * h.width as usize;
    t.len() == items_end(t, e.at + pairings, e.portitems as usize)
}

// Whether the octets are well formed as extension link information (T11).
pub fn extension_fits(t: &[u8]) -> bool
    ensures { result ≡ extension_ok t.now }
{
    let n = octet(t, 0) as usize;
    if !one_to_four(n) {
        return false;
    }
    if !one_to_four(octet(t, 1 + n) as usize) {
        return false;
    }
    let h = opening_of(t);
    let e = closing_of(t, h);
    width_fits(h.width, h.addresses, e.pairings) && ends_there(t, h, e)
}

// Whether the address is one of the k; addresses of another length are not looked at, nor are pairing addresses (A4).
pub fn extension_names(t: &[u8], address: [u8; 6]) -> bool
    ensures { result ≡ extension_names t.now address }
{
    let h = opening_of(t);
    if h.width != 6 {
        return false;
    }
    // Without items the addresses are in a row.
    if h.items == 0 {
        return among(t, h.at as u16, h.addresses, address);
    }
    let mut at = h.at;
    for i in 0..h.addresses {
        if same_six(six(t, at), address) {
            return true;
        }
        at = items_end(t, at + 6, h.items as usize);
    }
    false
}

fn nowhere() -> Part
    ensures { result ≡ nowhere }
{
    Part { start: 0, len: 0 }
}

// The data of the item at a place.
fn item_part(t: &[u8], at: usize) -> Part
    requires { at < 2 ^ 62 }
    ensures { result ≡ item_part t.now at }
{
    Part {
        start: at + 1,
        len: octet(t, at) as usize,
    }
}

// The address of a number, from 0.
pub fn address_at(t: &[u8], i: usize) -> Part
    ensures { Answers t.now (address_at t.now i) (address_of (table_of t.now) i) result }
{
    if !extension_fits(t) {
        return nowhere();
    }
    let h = opening_of(t);
    if i >= h.addresses as usize {
        return nowhere();
    }
    let start = entries_end(t, h, i);
    let len = h.width as usize;
    Part { start, len }
}

// An item of the address of a number, by its own number.
pub fn item_at(t: &[u8], i: usize, j: usize) -> Part
    ensures { Answers t.now (item_at t.now i j) (item_of (table_of t.now) i j) result }
{
    if !extension_fits(t) {
        return nowhere();
    }
    let h = opening_of(t);
    if i >= h.addresses as usize {
        return nowhere();
    }
    if j >= h.items as usize {
        return nowhere();
    }
    let items = entries_end(t, h, i) + h.width as usize;
    item_part(t, items_end(t, items, j))
}

// The pairing address of a number.
pub fn pairing_at(t: &[u8], i: usize) -> Part
    ensures { Answers t.now (pairing_at t.now i) (pairing_of (table_of t.now) i) result }
{
    if !extension_fits(t) {
        return nowhere();
    }
    let h = opening_of(t);
    let e = closing_of(t, h);
    if i >= e.pairings as usize {
        return nowhere();
    }
    let len = h.width as usize;
    let start = e.at + i * len;
    Part { start, len }
}

// The port's item of a number.
pub fn port_item_at(t: &[u8], j: usize) -> Part
    ensures { Answers t.now (port_item_at t.now j) (port_item_of (table_of t.now) j) result }
{
    if !extension_fits(t) {
        return nowhere();
    }
    let h = opening_of(t);
    let e = closing_of(t, h);
    if j >= e.portitems as usize {
        return nowhere();
    }
    let items = e.at + e.pairings as usize * h.width as usize;
    item_part(t, items_end(t, items, j))
}

// Interface type and port number, and how many there are of what.
pub fn counts_of(t: &[u8]) -> Counts
    ensures { Counted t.now result }
{
    if !extension_fits(t) {
        return Counts {
            interface: nowhere(),
            port: nowhere(),
            width: 0,
            addresses: 0,
            items: 0,
            pairings: 0,
            portitems: 0,
        };
    }
    let n = octet(t, 0) as usize;
    let m = octet(t, 1 + n) as usize;
    let h = opening_of(t);
    let e = closing_of(t, h);
    Counts {
        interface: Part { start: 1, len: n },
        port: Part {
            start: 2 + n,
            len: m,
        },
        width: h.width,
        addresses: h.addresses,
        items: h.items,
        pairings: e.pairings,
        portitems: e.portitems,
    }
}
