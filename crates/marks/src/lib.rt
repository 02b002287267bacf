// Each place by itself (N5 b, c): whether it is fit, and then its mark, by which most identities are told apart.
// Each LLDPDU is walked once, for validity, seconds and mark together. A shorter buffer is looked at as far as it goes; its length is `fitness`'s.
#![tactic(auto)]

ghost use Rattle.std.specs.Prelude.{◌≡◌, length};
ghost use Rattle.lldpdu.specs.Extent.{extent_of};
ghost use Rattle.lldpdu.specs.Leading.{leading_of};
ghost use Rattle.place.specs.State.{state, whose_in};
ghost use Rattle.marks.specs.Marks.{identity_mark, check_free, check_used, check_place, Checks};

use lldpdu::{Leading, leading_of, rest_extent};
use numbers::{PLACES, PORTS, Table};
use octets::{is_group, pair};
use place::SIZE;
use text::{Part, text_of};
use whole::all_zero;

// The mark of an identity: unequal marks tell unequal identities, and cost one comparison of a number.
// It takes the last octets, since the first ones of a chassis are its maker's; they stand before TLV 2 and before TLV 3.
fn mark_of(p: u8, l: &[u8], leading: Leading) -> u32
    requires { (extent_of l.now ≡ Ok (length l.now)) × (leading_of l.now ≡ Ok leading) }
    ensures { result ≡ identity_mark (whose_in p l.now) }
{
    let Leading { port, seconds } = leading;
    let front = pair(p, l[port - 1]);
    u32::from(front) * 65536 + u32::from(pair(l[seconds - 2], l[seconds - 1]))
}

// A free place has numbers 0, a sender of six zeros and octets 0 (N5 b). Its mark is 0; a place that is not fit has none.
#[tactic(auto, using(crate::proofs::CheckLaws::free_tested))]
fn check_free(p: u8, left: u16, sender: [u8; 6], b: &[u8]) -> Option<u32>
    ensures { result ≡ check_free p left sender b.now }
{
    if p != 0 || left != 0 || sender != [0; 6] || !all_zero(b) {
        return None;
    }
    Some(0)
}

// A valid LLDPDU of exactly its length has time left, and zeros stand behind it (N5 c).
#[tactic(auto, using(lldpdu::proofs::LeadingLaws::leads, crate::proofs::CheckLaws::used_tested))]
fn check_whole(p: u8, left: u16, l: &[u8], rest: &[u8], leading: Leading) -> Option<u32>
    requires { (extent_of l.now ≡ Ok (length l.now)) × (leading_of l.now ≡ Ok leading) }
    ensures { result ≡ check_used p left l.now rest.now }
{
    let at = leading.seconds;
    if left < 1 || left > pair(l[at + 2], l[at + 3]) || !all_zero(rest) {
        return None;
    }
    Some(mark_of(p, l, leading))
}

// A used place has a whole valid LLDPDU (N5 c). No outline is made of it, which takes longer than to judge it.
#[tactic(auto, using(lldpdu::proofs::LeadingLaws::leads, crate::proofs::CheckLaws::used_judged))]
fn check_used(p: u8, left: u16, l: &[u8], rest: &[u8]) -> Option<u32>
    ensures { result ≡ check_used p left l.now rest.now }
{
    let leading = leading_of(l).ok()?;
    let octets = rest_extent(l, leading.seconds + 4).ok()?;
    if octets != l.len() {
        return None;
    }
    check_whole(p, left, l, rest, leading)
}

// A place by its own numbers, its sender and its octets b.
#[tactic(auto, using(crate::proofs::CheckLaws::place_tested))]
fn check_place(p: u8, left: u16, length: u16, sender: [u8; 6], b: &[u8]) -> Option<u32>
    ensures { result ≡ check_place (record { port = p; seconds = left; len = length; sender = sender; body = b.now }) }
{
    if length == 0 {
        return check_free(p, left, sender, b);
    }
    let n = usize::from(length);
    if usize::from(p) >= PORTS || is_group(sender) || n > SIZE {
        return None;
    }
    let l = text_of(b, Part { start: 0, len: n });
    let rest = text_of(
        b,
        Part {
            start: n,
            len: b.len(),
        },
    );
    check_used(p, left, l, rest)
}

// The marks of all places, where all of them are fit by themselves. By index: what a place has stands in four lists and in the buffer.
pub fn marks_of(t: Table, buffer: &[u8]) -> Option<[u32; PLACES]>
    ensures { Checks (state t buffer.now) result }
{
    let mut marks = [0u32; PLACES];
    for i in 0..PLACES {
        let b = text_of(
            buffer,
            Part {
                start: i * SIZE,
                len: SIZE,
            },
        );
        marks[i] = check_place(t.port[i], t.seconds[i], t.length[i], t.sender[i].octets, b)?;
    }
    Some(marks)
}
