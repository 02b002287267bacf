// The two questions: how many a port holds (N10), and who sees an address (N11).
// Neither writes anything; who sees asks the reader about each record as it is kept.
#![tactic(auto)]

ghost use Rattle.std.specs.Prelude.{◌≡◌, ◌≢◌, true, ◌-◌, length, Ok};
ghost use Rattle.lldpdu.specs.Extent.{extent_of};
ghost use Rattle.numbers.specs.Sizes.{places};
ghost use Rattle.place.specs.State.{state, lldpdu_in};
ghost use Rattle.fitness.specs.Fit.{fit};
ghost use Rattle.questions.specs.Sight.{Counted, naming_in, sight_from, Sees};

use fitness::is_fit;
use naming::{Naming, Number, rest_naming};
use numbers::{PLACES, PORTS, Table, held};
use place::lldpdu_at;
use refusal::Refusal;

// A place whose record names the address, and the two numbers that it gives.
#[derive(Clone, Copy)]
pub struct Sight {
    pub place: usize,
    pub interface: Number,
    pub port: Number,
}

pub fn how_many(t: Table, buffer: &[u8], port: usize) -> Result<u8, Refusal>
    ensures { Counted port (state t buffer.now) result }
{
    if !is_fit(t, buffer) {
        return Err(Refusal::Unfit);
    }
    if port >= PORTS {
        return Err(Refusal::NoPort);
    }
    Ok(held(t, port))
}

// Place i, by how many octets it keeps. A fit table keeps valid LLDPDUs alone (N5), so that none is judged again.
fn naming_in_place(buffer: &[u8], i: usize, kept: u16, address: [u8; 6]) -> Option<Naming>
    requires { kept ≢ 0 → extent_of (lldpdu_in buffer.now i kept) ≡ Ok (length (lldpdu_in buffer.now i kept)) }
    ensures { result ≡ naming_in address kept (lldpdu_in buffer.now i kept) }
{
    if kept == 0 {
        return None;
    }
    rest_naming(lldpdu_at(buffer, i, kept), address)
}

// Places are counted from the given one on, since the place is part of the answer (N11).
fn sight_from(t: Table, buffer: &[u8], address: [u8; 6], from: usize) -> Option<Sight>
    requires { fit (state t buffer.now) ≡ true }
    ensures { result ≡ sight_from (state t buffer.now) address from (places - from) }
{
    for i in from..PLACES {
        if let Some(named) = naming_in_place(buffer, i, t.length[i], address) {
            return Some(Sight {
                place: i,
                interface: named.interface,
                port: named.port,
            });
        }
    }
    None
}

pub fn who_sees(
    t: Table,
    buffer: &[u8],
    address: [u8; 6],
    from: usize,
) -> Result<Option<Sight>, Refusal>
    ensures { Sees address from (state t buffer.now) result }
{
    if !is_fit(t, buffer) {
        return Err(Refusal::Unfit);
    }
    Ok(sight_from(t, buffer, address, from))
}
