// A whole frame: its length, destination, type and source, then the LLDPDU behind them.
// The parts of an answer count from the first octet of the LLDPDU, which stands behind the header.
ghost use Rattle.std.specs.Prelude.{◌≡◌, Bool, true, false, Err, IfOk, IfErr};
ghost use Rattle.reader.specs.Frame.{destination_ok, source_of, lldpdu_of, frame_ok, on_frame, ReadsFrame};
ghost use Rattle.lldpdu.specs.Outline.{outline_of};
ghost use Rattle.refusal.specs.declared.Refusal.TheVariants.{NoFrame};

use lldpdu::{Outline, outline_lldpdu};
use octets::{is_group, octet, same_six, six};
use reading::{Reading, read_lldpdu};
use refusal::Refusal;

// The octets of destination, source and type, behind which the LLDPDU begins (F1).
pub const HEADER: usize = 14;

// The fewest and the most octets of a frame (F1).
const SHORTEST: usize = 14;

const LONGEST: usize = 1514;

// The two destinations (F2).
fn destination_fits(a: [u8; 6]) -> bool
    ensures { result ≡ destination_ok a }
{
    same_six(a, [0xFF; 6]) || same_six(a, [0x01, 0x80, 0xC2, 0x00, 0x00, 0x0E])
}

// Octets 6 to 11 (F1); what a shorter frame lacks reads as 0.
pub fn source_of(f: &[u8]) -> [u8; 6]
    ensures { result ≡ source_of f.now }
{
    six(f, 6)
}

// Length, type, destination and source (F1 to F4).
#[tactic(auto, unfolding(crate::specs::Frame::frame_ok))]
fn frame_fits(f: &[u8]) -> bool
    ensures { result ≡ frame_ok f.now }
{
    f.len() >= SHORTEST
        && f.len() <= LONGEST
        && octet(f, 12) == 0x88
        && octet(f, 13) == 0xCC
        && destination_fits(six(f, 0))
        && !is_group(source_of(f))
}

// Octets 14 and on (F1), or refusal 3 where length, destination, type or source is not as it should be (R3).
fn lldpdu_of(f: &[u8]) -> Result<&[u8], Refusal>
    ensures taken { IfOk result (λ s. (frame_ok f.now ≡ true) × (s.now ≡ lldpdu_of f.now)) }
    ensures refused { IfErr result (λ r. (frame_ok f.now ≡ false) × (r ≡ NoFrame)) }
{
    if !frame_fits(f) {
        return Err(Refusal::NoFrame);
    }
    Ok(&f[HEADER..])
}

#[tactic(auto, unfolding(crate::specs::Frame::on_frame))]
pub fn outline_frame(f: &[u8]) -> Result<Outline, Refusal>
    ensures { result ≡ on_frame (Err NoFrame) outline_of f.now }
{
    outline_lldpdu(lldpdu_of(f)?)
}

pub fn read_frame(f: &[u8]) -> Result<Reading, Refusal>
    ensures { ReadsFrame f.now result }
{
    let l = lldpdu_of(f)?;
    read_lldpdu(l)
}
