// Whole strings of octets: all zero, the same, cleared, filled.
// The search for an octet that is not 0 has no early exit octet by octet: octets are joined, so that the compiler takes many at a time.
#![tactic(auto)]

ghost use Rattle.std.specs.Prelude.{◌≡◌, length, replicate};
ghost use Rattle.octets.specs.Address.{same_octets};
ghost use Rattle.whole.specs.Whole.{zeros, filled};

// The octets that are judged at once. The last of them overlap those before, so that no rest is left to go octet by octet.
const AT_ONCE: usize = 256;

// Whether all octets are 0, as those of a free place are and those behind a record (N5).
pub fn all_zero(s: &[u8]) -> bool
    ensures { result ≡ zeros s.now }
{
    if s.len() < AT_ONCE {
        return part_zero(s);
    }
    let last = s.len() - AT_ONCE;
    let mut i = 0;
    while i < last {
        if part_zero(&s[i..i + AT_ONCE]) {
            i += AT_ONCE;
        } else {
            return false;
        }
    }
    part_zero(&s[last..])
}

fn part_zero(s: &[u8]) -> bool
    ensures { result ≡ zeros s.now }
{
    let mut seen = 0;
    for &x in s {
        seen |= x;
    }
    seen == 0
}

// Whether two strings of octets are the same, as those of one identity are (N2).
pub fn same(a: &[u8], b: &[u8]) -> bool
    ensures { result ≡ same_octets a.now b.now }
{
    a == b
}

// All octets become 0, as those of a freed place do (N4).
pub fn clear(s: &mut [u8])
    ensures { s.new ≡ replicate (length s.old) 0 }
{
    s.fill(0);
}

// The octets s, as far as they fit, then zeros, as a place keeps an LLDPDU (N3).
pub fn fill(d: &mut [u8], s: &[u8])
    ensures { d.new ≡ filled s.now (length d.old) }
{
    let n = d.len().min(s.len());
    // Octet by octet: with copy_from_slice the archive for C calls memmove, which it asked of nobody before.
    for i in 0..n {
        d[i] = s[i];
    }
    clear(&mut d[n..]);
}
