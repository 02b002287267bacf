// The table's numbers and senders as octets (X3), for a caller that has no structs of ours: four slices lent beside the buffer.
// Any slices get an answer: what octets past the end would say is 0, and slices of other lengths are not written.
#![tactic(auto)]

ghost use Rattle.std.specs.Prelude.{◌≡◌, ◌+◌, ◌*◌, length, get_or};
ghost use Rattle.tally.specs.Tab.{tab};
ghost use Rattle.octets.specs.Numbers.{pair_of};
ghost use Rattle.numbers.specs.Sizes.{places};
ghost use Rattle.octet_table.specs.Lent.{numbers_long, senders_len, lent, lengths_right, one_per_place, numbers_in, senders_in, table_in, number_octets, sender_octets, Puts};

use numbers::{PLACES, Sender, Table};
use octets::{pair, six};
use whole::fill;

// The octets of the seconds, and of the lengths; the octets of the senders (X2).
pub const NUMBERS: usize = 2 * PLACES;

pub const SENDERS: usize = 6 * PLACES;

// Each slice has its length, by their numbers of octets (X2).
#[tactic(auto, unfolding(crate::specs::Lent::lengths_right))]
pub fn lengths_fit(ports: usize, seconds: usize, lengths: usize, senders: usize) -> bool
    ensures { result ≡ lengths_right ports seconds lengths senders }
{
    ports == PLACES && seconds == NUMBERS && lengths == NUMBERS && senders == SENDERS
}

// Low octet first: in this order the compiler reads two octets at once.
fn low_first(o: &[u8]) -> [u16; PLACES]
    requires { length o.now ≡ numbers_long }
    ensures { result ≡ tab places (λ i. pair_of (get_or o.now (2 * i + 1) 0) (get_or o.now (2 * i) 0)) }
{
    let mut a = [0; PLACES];
    for i in 0..PLACES {
        a[i] = pair(o[2 * i + 1], o[2 * i]);
    }
    a
}

// High octet first.
fn numbers_in(o: &[u8]) -> [u16; PLACES]
    requires { length o.now ≡ numbers_long }
    ensures { result ≡ numbers_in o.now }
{
    let mut a = low_first(o);
    for i in 0..PLACES {
        let n = a[i];
        a[i] = n % 256 * 256 + n / 256;
    }
    a
}

fn senders_in(o: &[u8]) -> [Sender; PLACES]
    ensures { result ≡ senders_in o.now }
{
    let mut a = [Sender { octets: [0; 6] }; PLACES];
    for i in 0..PLACES {
        a[i] = Sender {
            octets: six(o, 6 * i),
        };
    }
    a
}

// The table that the slices mean. They are brought to their lengths first, so that no read is tested for an end.
pub fn table_in(ports: &[u8], seconds: &[u8], lengths: &[u8], senders: &[u8]) -> Table
    ensures { result ≡ table_in (lent ports.now seconds.now lengths.now senders.now) }
{
    let mut p = [0; PLACES];
    let mut s = [0; NUMBERS];
    let mut l = [0; NUMBERS];
    let mut n = [0; SENDERS];
    fill(&mut p[..], ports);
    fill(&mut s[..], seconds);
    fill(&mut l[..], lengths);
    fill(&mut n[..], senders);
    Table {
        port: p,
        seconds: numbers_in(&s[..]),
        length: numbers_in(&l[..]),
        sender: senders_in(&n[..]),
    }
}

fn put_ports(ports: [u8; PLACES], out: &mut [u8])
    requires { length out.old ≡ places }
    ensures { (out.new ≡ one_per_place ports) × (one_per_place out.new ≡ ports) }
{
    out.copy_from_slice(&ports);
}

// High octet first.
fn put_numbers(numbers: [u16; PLACES], out: &mut [u8])
    requires { length out.old ≡ numbers_long }
    ensures { (out.new ≡ number_octets numbers) × (numbers_in out.new ≡ numbers) }
{
    for i in 0..PLACES {
        let n = numbers[i];
        out[2 * i] = (n / 256 % 256) as u8;
        out[2 * i + 1] = (n % 256) as u8;
    }
}

// A sender has six octets.
fn octets_of(s: Sender) -> [u8; 6]
    ensures { (result ≡ s.octets) × (length s.octets ≡ 6) }
{
    s.octets
}

// That each has six octets is what makes the octets mean these senders again.
fn put_senders(senders: [Sender; PLACES], out: &mut [u8])
    requires { length out.old ≡ senders_len }
    ensures { (out.new ≡ sender_octets senders) × (senders_in out.new ≡ senders) }
{
    for i in 0..PLACES {
        let o = octets_of(senders[i]);
        out[6 * i] = o[0];
        out[6 * i + 1] = o[1];
        out[6 * i + 2] = o[2];
        out[6 * i + 3] = o[3];
        out[6 * i + 4] = o[4];
        out[6 * i + 5] = o[5];
    }
}

// The table put into slices that have their lengths; others stay as they are.
pub fn put_table(
    t: Table,
    ports: &mut [u8],
    seconds: &mut [u8],
    lengths: &mut [u8],
    senders: &mut [u8],
)
    ensures { Puts t (lent ports.old seconds.old lengths.old senders.old) (lent ports.new seconds.new lengths.new senders.new) }
{
    if lengths_fit(ports.len(), seconds.len(), lengths.len(), senders.len()) {
        put_ports(t.port, ports);
        put_numbers(t.seconds, seconds);
        put_numbers(t.length, lengths);
        put_senders(t.sender, senders);
    }
}
