// Records of a stored file: each has a head of a fixed length, and behind it as many octets as the head says.
// Any octets are taken; what is not there is left out.
ghost use Rattle.std.specs.Prelude.{◌≡◌, take, drop};
ghost use Rattle.input.specs.Stored.{number_at, wide_at};

// The number in n octets at a place, high octet first. Of more than eight octets the last eight count.
pub fn number_at(octets: &[u8], at: usize, n: usize) -> usize
    ensures { result ≡ number_at octets.now at n }
{
    let (own, _) = split_behind(octets, at, n);
    let mut number: usize = 0;
    for octet in own {
        number = number.wrapping_mul(256).wrapping_add(*octet as usize);
    }
    number
}

// The number in eight octets, as two of four. Where the file ends inside one of these, that one is the number in the octets that are there.
pub fn wide_at(octets: &[u8], at: usize) -> usize
    ensures { result ≡ wide_at octets.now at }
{
    let (_, behind) = split_behind(octets, at, 4);
    number_at(octets, at, 4)
        .wrapping_mul(4294967296)
        .wrapping_add(number_at(behind, 0, 4))
}

// The n octets behind the head of the first record, and what stands behind them.
pub fn split_behind(octets: &[u8], head: usize, n: usize) -> (&[u8], &[u8])
    ensures own { result.0.now ≡ take n (drop head octets.now) }
    ensures rest { result.1.now ≡ drop n (drop head octets.now) }
{
    let behind = octets.get(head..).unwrap_or_default();
    behind.split_at(n.min(behind.len()))
}
