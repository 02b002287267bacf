// What is printed (J2): numbers in decimal, octets in hex and a chassis, put into a lent line.
// Every function takes any line, and leaves out what does not fit.
#![tactic(auto)]

ghost use Rattle.std.specs.Prelude.{◌≡◌, ◌∷◌, ◌<◌};
ghost use Rattle.output.specs.Output.{Put};
ghost use Rattle.line.specs.Hex.{digit_of, hex_of, hexes_or_stop, joined, chassis_shown};
ghost use Rattle.line.specs.Decimal.{decimal};

use output::Output;

// A number in decimal: the digits of the tenth part, then the last one. By hand, since what a lent line has no room for is left out octet by octet, and no `Display` says so.
pub fn put_number(line: &mut Output, n: u64)
    ensures { Put (decimal n) line.old line.new }
{
    if n < 10 {
        line.put_octet(b'0' + n as u8);
        return;
    }
    put_number(line, n / 10);
    line.put_octet(b'0' + (n % 10) as u8);
}

// The digits from 10 on are letters.
const LETTERS: u8 = b'A' - 10;

fn digit_of(n: u8) -> u8
    requires { n < 16 }
    ensures { result ≡ digit_of n }
{
    if n < 10 { b'0' + n } else { LETTERS + n }
}

// An octet as two capital hex digits.
#[tactic(auto, unfolding(output::specs::Output::puts))]
fn put_hex(line: &mut Output, b: u8)
    ensures { Put (hex_of b) line.old line.new }
{
    line.put_octet(digit_of(b / 16));
    line.put_octet(digit_of(b % 16));
}

// Octets in hex one behind the other, or a full stop where there are none, as the stored answers of the tests have them.
pub fn put_hexes(line: &mut Output, octets: &[u8])
    ensures { Put (hexes_or_stop octets.now) line.old line.new }
{
    if octets.is_empty() {
        line.put_octet(b'.');
        return;
    }
    for &b in octets {
        put_hex(line, b);
    }
}

#[tactic(auto, unfolding(output::specs::Output::puts))]
fn put_dashed(line: &mut Output, b: u8)
    ensures { Put (45 ∷ hex_of b) line.old line.new }
{
    line.put_octet(b'-');
    put_hex(line, b);
}

// Octets in hex, joined by `-`.
pub fn put_joined(line: &mut Output, octets: &[u8])
    ensures { Put (joined octets.now) line.old line.new }
{
    let Some((first, rest)) = octets.split_first() else {
        return;
    };
    put_hex(line, *first);
    for &b in rest {
        put_dashed(line, b);
    }
}

// A chassis (J2): with subtype 7 its octets are characters, behind the word `local`; with any other they are an address.
#[tactic(auto, unfolding(crate::specs::Hex::chassis_shown, output::specs::Output::puts))]
pub fn put_chassis(line: &mut Output, subtype: usize, octets: &[u8])
    ensures { Put (chassis_shown subtype octets.now) line.old line.new }
{
    if subtype == 7 {
        line.put_all(b"local ");
        line.put_all(octets);
    } else {
        put_joined(line, octets);
    }
}
