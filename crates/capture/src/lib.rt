// A capture in the classic pcap layout (C1, C2): its numbers in either order, the file header, the header of a record.
// Every function takes any octets; where a header is not all there, what is missing reads as 0.
#![tactic(auto)]

ghost use Rattle.std.specs.Prelude.{◌≡◌, ◌<◌};
ghost use Rattle.capture.specs.Layout.{word, opens, layout_of, stamp, captured, original};

use octets::octet;

// The four octets of the magic with the high octet first, and the one link type that is read (C1, C2).
const MAGIC: u32 = 0xA1B2C3D4;

const ETHERNET: u32 = 1;

// What a file header says of the numbers of the file, or that the file is refused with 11.
#[derive(Clone, Copy)]
pub enum Layout {
    HighFirst,
    LowFirst,
    Foreign,
}

// The four octets at a place of a header as one number.
#[tactic(auto, using(crate::proofs::LayoutLaws::low_first, crate::proofs::LayoutLaws::high_first), unfolding(crate::specs::Layout::word))]
fn word_at(low: bool, s: &[u8], i: usize) -> u32
    requires { i < 24 }
    ensures { result ≡ word low s.now i }
{
    let octets = [
        octet(s, i),
        octet(s, i + 1),
        octet(s, i + 2),
        octet(s, i + 3),
    ];
    if low {
        u32::from_le_bytes(octets)
    } else {
        u32::from_be_bytes(octets)
    }
}

// Whether a file header is one, read in this order (C2).
#[tactic(auto, unfolding(crate::specs::Layout::opens))]
fn is_header(low: bool, header: &[u8]) -> bool
    ensures { result ≡ opens low header.now }
{
    let magic = word_at(low, header, 0);
    magic == MAGIC && word_at(low, header, 20) == ETHERNET
}

#[tactic(auto, unfolding(crate::specs::Layout::layout_of))]
pub fn layout_of(header: &[u8]) -> Layout
    ensures { result ≡ layout_of header.now }
{
    if is_header(false, header) {
        Layout::HighFirst
    } else if is_header(true, header) {
        Layout::LowFirst
    } else {
        Layout::Foreign
    }
}

pub fn stamp_of(low: bool, header: &[u8]) -> u32
    ensures { result ≡ stamp low header.now }
{
    word_at(low, header, 0)
}

pub fn captured_of(low: bool, header: &[u8]) -> u32
    ensures { result ≡ captured low header.now }
{
    word_at(low, header, 8)
}

pub fn original_of(low: bool, header: &[u8]) -> u32
    ensures { result ≡ original low header.now }
{
    word_at(low, header, 12)
}
