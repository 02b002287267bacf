// The table but for its octets (N1): port, seconds left, length and sender of every place, and all that follows from the numbers alone.
// The number of ports is one constant; places and common places follow from it.
#![tactic(auto)]

ghost use Rattle.std.specs.Prelude.{◌≡◌};
ghost use Rattle.rules.specs.Shares.{beyond, share};
ghost use Rattle.numbers.specs.Sizes.{ports};
ghost use Rattle.numbers.specs.Numbers.{holds, first_free, shares_ok};

use rules::Room;

// At most 63: with 64 there would be 256 places, and `held` counts them in an octet (N1).
pub const PORTS: usize = 10;

pub const PLACES: usize = 4 * PORTS;

// The places that are common to all ports, the sure places of each, and the most that one may hold (N12).
const COMMON: usize = 2 * PORTS;

const SURE: u8 = 2;

const MOST: u8 = 6;

// The most that one chassis may hold on one port (N13).
pub const PER_CHASSIS: u8 = 3;

// The source of the frame that a record came in (N3). It is a struct, since a field of a struct cannot be an array of arrays.
#[derive(Clone, Copy)]
pub struct Sender {
    pub octets: [u8; 6],
}

#[derive(Clone, Copy)]
pub struct Table {
    pub port: [u8; PLACES],
    pub seconds: [u16; PLACES],
    pub length: [u16; PLACES],
    pub sender: [Sender; PLACES],
}

// How many used places have this port (N10).
// It counts in an octet, so that many places are counted at a time; that 256 places do not fit is held by the edit ports_64.
#[tactic(auto, using(crate::proofs::NumbersLaws::counting), unfolding(crate::specs::Numbers::holds))]
pub fn held(t: Table, p: usize) -> u8
    ensures { result ≡ holds t p }
{
    let mut n: u8 = 0;
    for i in 0..PLACES {
        if t.length[i] != 0 && usize::from(t.port[i]) == p {
            n += 1;
        }
    }
    n
}

// How many common places are taken (N5 f). In a loop: what a chain sums would have to be bounded first.
pub fn beyond_sure(t: Table) -> usize
    ensures { result ≡ beyond ports (holds t) }
{
    let mut sum: usize = 0;
    for p in 0..PORTS {
        sum += usize::from(held(t, p).saturating_sub(SURE));
    }
    sum
}

// What the shares say of a new record on a port, of a chassis that holds so many there (N12, N13, R13, R7, R8).
pub fn room_of(t: Table, p: usize, own: u8) -> Room
    ensures { result ≡ share ports (holds t) own p }
{
    let n = held(t, p);
    if own == PER_CHASSIS {
        return Room::Loud;
    }
    if n < SURE {
        return Room::Enough;
    }
    if n == MOST {
        return Room::Full;
    }
    if beyond_sure(t) == COMMON {
        return Room::Taken;
    }
    Room::Enough
}

// No port holds more than it may, and neither do all of them together (N5 e, f). One count of each port serves both.
pub fn shares_fit(t: Table) -> bool
    ensures { result ≡ shares_ok (holds t) }
{
    let mut sum: usize = 0;
    for p in 0..PORTS {
        let count = held(t, p);
        if count > MOST {
            return false;
        }
        sum += usize::from(count.saturating_sub(SURE));
    }
    sum <= COMMON
}

// The lowest free place (N4), or PLACES where there is none.
pub fn first_free(t: Table) -> usize
    ensures { result ≡ first_free t }
{
    (0..PLACES).find(|&i| t.length[i] == 0).unwrap_or(PLACES)
}
