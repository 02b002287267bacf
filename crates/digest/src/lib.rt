// The digest of a table with its buffer: one number of 32 bits, which the tests print where a table is too long to print.
// It goes over the ports, the seconds, the lengths, the senders and then every octet of the buffer.
#![tactic(auto)]

ghost use Rattle.std.specs.Prelude.{◌≡◌};
ghost use Rattle.digest.specs.Digest.{mixed, mixed_all, mixed_senders, digest_of};

use numbers::{Sender, Table};

// One value more. The modulus is the greatest prime number of 32 bits.
fn mixed(h: u32, value: u16) -> u32
    ensures { result ≡ mixed h value }
{
    ((u64::from(h) * 31 + u64::from(value) + 1) % 4294967291) as u32
}

fn mixed_octets(h: u32, s: &[u8]) -> u32
    ensures { result ≡ mixed_all h s.now }
{
    s.iter().fold(h, |mix, &octet| mixed(mix, u16::from(octet)))
}

fn mixed_numbers(h: u32, s: &[u16]) -> u32
    ensures { result ≡ mixed_all h s.now }
{
    s.iter().fold(h, |mix, &number| mixed(mix, number))
}

fn mixed_senders(h: u32, s: &[Sender]) -> u32
    ensures { result ≡ mixed_senders h s.now }
{
    s.iter()
        .fold(h, |mix, sender| mixed_octets(mix, &sender.octets))
}

pub fn digest_of(t: Table, buffer: &[u8]) -> u32
    ensures { result ≡ digest_of t buffer.now }
{
    let ports = mixed_octets(0, &t.port);
    let numbers = mixed_numbers(mixed_numbers(ports, &t.seconds), &t.length);
    let senders = mixed_senders(numbers, &t.sender);
    mixed_octets(senders, buffer)
}
