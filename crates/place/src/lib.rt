// One place of the table: its numbers and its sender in the struct, its 1,500 octets in the buffer (N1), and whose it is (N2).
// Any place of any buffer can be named: past the last nothing is kept, and a buffer of another length is read as far as it goes and never written.
#![tactic(auto)]

ghost use Rattle.std.specs.Prelude.{◌≡◌};
ghost use Rattle.ids.specs.Id.{id_meant};
ghost use Rattle.place.specs.State.{put_there, free, state, lldpdu_in, keep, record_is, is_from, ident, find, place_found};

use ids::{IdPart, same_id};
use lldpdu::{chassis_of, port_of};
use numbers::{PLACES, Sender, Table};
use text::{Part, text_of};
use whole::{clear, fill};

// The octets of a place and of the whole buffer (N1).
pub const SIZE: usize = 1500;

pub const OCTETS: usize = PLACES * SIZE;

// The LLDPDU of so many octets that place i keeps (N3). What is asked of every place in turn takes the place's own numbers: the whole table would be copied each time.
pub fn lldpdu_at(buffer: &[u8], i: usize, length: u16) -> &[u8]
    ensures { result.now ≡ lldpdu_in buffer.now i length }
{
    if i >= PLACES {
        return &[];
    }
    text_of(
        text_of(
            buffer,
            Part {
                start: i * SIZE,
                len: SIZE,
            },
        ),
        Part {
            start: 0,
            len: length as usize,
        },
    )
}

// Place i becomes free (N4), where there is such a place and the buffer has its length.
#[tactic(auto, using(crate::proofs::ThereLaws::refusing))]
pub fn release(mut t: Table, buffer: &mut [u8], i: usize) -> Table
    ensures { state result buffer.new ≡ put_there (state t buffer.old) i free }
{
    if i >= PLACES || buffer.len() != OCTETS {
        return t;
    }
    t.port[i] = 0;
    t.seconds[i] = 0;
    t.length[i] = 0;
    t.sender[i] = Sender { octets: [0; 6] };
    clear(&mut buffer[i * SIZE..i * SIZE + SIZE]);
    t
}

// Place i keeps an LLDPDU that was heard on a port, with seconds left and its sender (N3, N7), where the place has room for it too.
#[tactic(auto, using(crate::proofs::ThereLaws::refusing), unfolding(crate::specs::State::keep))]
pub fn store(
    mut t: Table,
    buffer: &mut [u8],
    i: usize,
    p: u8,
    left: u16,
    sender: [u8; 6],
    l: &[u8],
) -> Table
    ensures { state result buffer.new ≡ put_there (state t buffer.old) i (keep p left sender l.now) }
{
    if i >= PLACES || buffer.len() != OCTETS || l.len() > SIZE {
        return t;
    }
    t.port[i] = p;
    t.seconds[i] = left;
    t.length[i] = l.len() as u16;
    t.sender[i] = Sender { octets: sender };
    fill(&mut buffer[i * SIZE..i * SIZE + SIZE], l);
    t
}

// Whether an LLDPDU has the chassis and the port ID that are given as parts of a text (N2).
#[tactic(auto, using(crate::proofs::WhoseLaws::from_by))]
fn is_from(l: &[u8], text: &[u8], chassis: IdPart, port: IdPart) -> bool
    ensures { result ≡ is_from l.now (id_meant text.now chassis) (id_meant text.now port) }
{
    same_id(l, chassis_of(l), text, chassis) && same_id(l, port_of(l), text, port)
}

// Whether place i, by its own length and port, has a record with the identity of port p and of two parts of a text (N2).
#[tactic(auto, using(crate::proofs::WhoseLaws::of_by))]
pub fn is_of(
    buffer: &[u8],
    i: usize,
    length: u16,
    origin: u8,
    p: u8,
    text: &[u8],
    chassis: IdPart,
    port: IdPart,
) -> bool
    ensures { result ≡ record_is length origin (lldpdu_in buffer.now i length) (ident p (id_meant text.now chassis) (id_meant text.now port)) }
{
    length != 0 && origin == p && is_from(lldpdu_at(buffer, i, length), text, chassis, port)
}

// The place of a record with this identity; None where it is new (N2).
pub fn place_of(
    t: Table,
    buffer: &[u8],
    p: u8,
    text: &[u8],
    chassis: IdPart,
    port: IdPart,
) -> Option<usize>
    ensures { result ≡ place_found (find (state t buffer.now) (ident p (id_meant text.now chassis) (id_meant text.now port))) }
{
    // A free place, and one of another port, is passed before both parts of the text are handed over.
    (0..PLACES).find(|&i| {
        t.length[i] != 0
            && t.port[i] == p
            && is_of(buffer, i, t.length[i], t.port[i], p, text, chassis, port)
    })
}
