// Octets: total reads, numbers and addresses made of them, and the two octets of a TLV header.
// Every function takes any input; a read past the end of a slice gives 0, so no caller owes an index.
#![tactic(auto)]

ghost use Rattle.std.specs.Prelude.{◌≡◌, get_or, take};
ghost use Rattle.octets.specs.Header.{kind_in, length_in, high, low};
ghost use Rattle.octets.specs.Numbers.{pair_of, value_of};
ghost use Rattle.octets.specs.Address.{six_at, same_octets, is_group};

// The seven bits of type (L1).
pub fn kind_of(hi: u8) -> u8
    ensures { result ≡ kind_in hi }
{
    hi >> 1
}

// The nine bits of length (L1).
pub fn len_of(hi: u8, lo: u8) -> usize
    ensures { result ≡ length_in hi lo }
{
    usize::from(hi & 1) << 8 | usize::from(lo)
}

// The first octet of a header, joined again from type and length (L1).
pub fn high_of(kind: u8, len: usize) -> u8
    ensures { result ≡ high kind len }
{
    (kind & 127) << 1 | ((len >> 8) & 1) as u8
}

// The second octet of a header (L1).
pub fn low_of(len: usize) -> u8
    ensures { result ≡ low len }
{
    (len & 255) as u8
}

// The octet at a place, 0 past the end.
pub fn octet(s: &[u8], i: usize) -> u8
    ensures { result ≡ get_or s.now i 0 }
{
    s.get(i).copied().unwrap_or(0)
}

// Two octets as one number, high octet first (L5).
pub fn pair(hi: u8, lo: u8) -> u16
    ensures { result ≡ pair_of hi lo }
{
    u16::from_be_bytes([hi, lo])
}

// Up to four octets as one number, high octet first (A4).
pub fn value_of(part: &[u8]) -> u32
    ensures { result ≡ value_of (take 4 part.now) }
{
    part.iter()
        .take(4)
        .fold(0, |value, &b| value << 8 | u32::from(b))
}

// The address at a place: six octets, by value. Written out: over `array::from_fn` the proof did not close, since its closure may change from call to call.
pub fn six(s: &[u8], at: usize) -> [u8; 6]
    ensures { result ≡ six_at s.now at }
{
    if s.len() <= at {
        return [0; 6];
    }
    [
        s[at],
        octet(s, at + 1),
        octet(s, at + 2),
        octet(s, at + 3),
        octet(s, at + 4),
        octet(s, at + 5),
    ]
}

// Whether two addresses are the same.
pub fn same_six(a: [u8; 6], b: [u8; 6]) -> bool
    ensures { result ≡ same_octets a b }
{
    a == b
}

// Whether an address is a group address (F4).
pub fn is_group(a: [u8; 6]) -> bool
    ensures { result ≡ is_group a }
{
    a[0] & 1 == 1
}
