// A frame on a port (N7): recorded, refreshed, gone, unknown goodbye, or refused.
// Refusals are decided front to back before the first store (Q1, Q2).
#![tactic(auto)]

ghost use Rattle.std.specs.Prelude.{◌≡◌, ◌≤◌, ◌<◌, true, length, Ok};
ghost use Rattle.ids.specs.Id.{id_meant};
ghost use Rattle.lldpdu.specs.Outline.{outline_of};
ghost use Rattle.numbers.specs.Sizes.{ports, places};
ghost use Rattle.place.specs.State.{size, octets, state, keep, chassis_in, whose_in, said};
ghost use Rattle.fitness.specs.Fit.{fit};
ghost use Rattle.hearing.specs.Frame.{heard_of, reception, told, heard_at, heard_new, heard_saying, on_heard, Hears};

use fitness::is_fit;
use ids::IdPart;
use lldpdu::Outline;
use loud::chassis_held;
use numbers::{PORTS, Table, first_free, room_of};
use place::{place_of, release, store};
use reader::{HEADER, outline_frame, source_of};
use refusal::Refusal;
use rules::{Reply, Room};
use text::{Part, text_of};

#[derive(Clone, Copy)]
pub struct Reception {
    pub table: Table,
    pub reply: Result<Reply, Refusal>,
}

// The table, and what is answered.
fn reply_with(t: Table, reply: Result<Reply, Refusal>) -> Reception
    ensures { result ≡ reception t reply }
{
    Reception { table: t, reply }
}

// A goodbye frees the place; any other announcement is kept in it.
fn hear_known(
    t: Table,
    buffer: &mut [u8],
    k: usize,
    p: u8,
    seconds: u16,
    sender: [u8; 6],
    l: &[u8],
) -> Reception
    requires { (k < places) × ((length buffer.old ≡ octets) × (length l.now ≤ size)) }
    ensures { told result buffer.new ≡ heard_at k seconds (keep p seconds sender l.now) (state t buffer.old) }
{
    if seconds == 0 {
        let u = release(t, buffer, k);
        return reply_with(u, Ok(Reply::Gone));
    }
    let u = store(t, buffer, k, p, seconds, sender, l);
    reply_with(u, Ok(Reply::Refreshed))
}

// The shares decide, with what its chassis holds on the port; a fit table with room has a free place, so there is no branch without one.
fn hear_new(
    t: Table,
    buffer: &mut [u8],
    p: u8,
    seconds: u16,
    sender: [u8; 6],
    l: &[u8],
    chassis: IdPart,
) -> Reception
    requires { (fit (state t buffer.old) ≡ true) × ((p < ports) × ((length l.now ≤ size) × (id_meant l.now chassis ≡ chassis_in l.now))) }
    ensures { told result buffer.new ≡ heard_new seconds (whose_in p l.now) (keep p seconds sender l.now) (state t buffer.old) }
{
    if seconds == 0 {
        return reply_with(t, Ok(Reply::UnknownGoodbye));
    }
    let own = chassis_held(t, buffer, p, l, chassis);
    match room_of(t, p as usize, own) {
        Room::Loud => reply_with(t, Err(Refusal::ChassisLoud)),
        Room::Full => reply_with(t, Err(Refusal::PortFull)),
        Room::Taken => reply_with(t, Err(Refusal::CommonTaken)),
        Room::Enough => {
            let u = store(t, buffer, first_free(t), p, seconds, sender, l);
            reply_with(u, Ok(Reply::Recorded))
        }
    }
}

// What an LLDPDU l that is valid does; o is its outline.
fn hear(t: Table, buffer: &mut [u8], p: u8, o: Outline, sender: [u8; 6], l: &[u8]) -> Reception
    requires { (fit (state t buffer.old) ≡ true) × ((p < ports) × ((length l.now ≤ size) × (outline_of l.now ≡ Ok o))) }
    ensures { told result buffer.new ≡ heard_saying p (said sender l.now) (state t buffer.old) }
{
    match place_of(t, buffer, p, l, o.chassis, o.port) {
        Some(k) => hear_known(t, buffer, k, p, o.seconds, sender, l),
        None => hear_new(t, buffer, p, o.seconds, sender, l, o.chassis),
    }
}

// A frame on a port that there is, on a fit table.
fn hear_frame(t: Table, buffer: &mut [u8], p: u8, frame: &[u8]) -> Reception
    requires { (fit (state t buffer.old) ≡ true) × (p < ports) }
    ensures { told result buffer.new ≡ on_heard (heard_of frame.now) p (state t buffer.old) }
{
    match outline_frame(frame) {
        Err(r) => reply_with(t, Err(r)),
        Ok(o) => {
            let l = text_of(
                frame,
                Part {
                    start: HEADER,
                    len: o.octets,
                },
            );
            hear(t, buffer, p, o, source_of(frame), l)
        }
    }
}

pub fn frame_on_port(t: Table, buffer: &mut [u8], port: usize, frame: &[u8]) -> Reception
    ensures { Hears port frame.now (state t buffer.old) result buffer.new }
{
    if !is_fit(t, buffer) {
        return reply_with(t, Err(Refusal::Unfit));
    }
    if port >= PORTS {
        return reply_with(t, Err(Refusal::NoPort));
    }
    hear_frame(t, buffer, port as u8, frame)
}
