// The walk: one TLV at a place, first by its header alone, then by the rules for a TLV behind the first three.
// This is the one place that knows how far a TLV reaches. Any octets and any place get an answer.
#![tactic(auto)]

ghost use Rattle.std.specs.Prelude.{◌≡◌, drop};
ghost use Rattle.walk.specs.Walk.{head_of, step_of};

use octets::{kind_of, len_of};
use refusal::Refusal;

// The header of a TLV: its type and L.
#[derive(Clone, Copy)]
pub struct Head {
    pub kind: u8,
    pub len: usize,
}

// The header at a place, where header and information string are whole.
pub fn head_at(s: &[u8], at: usize) -> Option<Head>
    ensures { result ≡ head_of (drop at s.now) }
{
    let [hi, lo, body @ ..] = s.get(at..)? else {
        return None;
    };
    let len = len_of(*hi, *lo);
    if len > body.len() {
        return None;
    }
    Some(Head {
        kind: kind_of(*hi),
        len,
    })
}

// What the walk does behind the first three TLVs where it is not refused: it is over, or it goes on behind one more TLV.
#[derive(Clone, Copy)]
pub enum Step {
    End(usize),
    Next { kind: u8, start: usize, len: usize },
}

// At one TLV, a header or body that runs past the end comes first (Q1).
#[tactic(auto, using(crate::proofs::WalkLaws::read), unfolding(crate::specs::Walk::step_of))]
pub fn step_at(s: &[u8], at: usize) -> Result<Step, Refusal>
    ensures { result ≡ step_of (head_of (drop at s.now)) at }
{
    let Head { kind, len } = head_at(s, at).ok_or(Refusal::RunsPast)?;
    let start = at + 2;
    match kind {
        0 if len == 0 => Ok(Step::End(start)),
        0..=3 => Err(Refusal::OutOfPlace),
        127 if len < 4 => Err(Refusal::OutOfPlace),
        _ => Ok(Step::Next { kind, start, len }),
    }
}
