// A part of a text: where it starts and how many octets it has, and the octets themselves; and up to four parts, in order.
// What was read, and what is to be written or printed, are parts of a text that is lent beside them.
#![tactic(auto)]

ghost use Rattle.std.specs.Prelude.{◌≡◌, length, get_or};
ghost use Rattle.text.specs.Part.{text_of, nowhere, empty_parts, with_part, parts_in};

#[derive(Clone, Copy)]
pub struct Part {
    pub start: usize,
    pub len: usize,
}

// The octets of a part; of one that reaches past the text, as much as there is.
pub fn text_of(s: &[u8], p: Part) -> &[u8]
    ensures { result.now ≡ text_of s.now p }
{
    let start = p.start;
    if s.len() <= start {
        return &s[0..0];
    }
    let len = p.len;
    if s.len() - start <= len {
        return &s[start..];
    }
    let end = start + len;
    &s[start..end]
}

// The most parts that are kept in order (S5).
pub const MOST_PARTS: usize = 4;

// The parts below the count; what stands behind them in the array says nothing.
#[derive(Clone, Copy)]
pub struct Parts {
    pub count: usize,
    pub parts: [Part; MOST_PARTS],
}

pub fn empty_parts() -> Parts
    ensures { result ≡ empty_parts }
{
    Parts {
        count: 0,
        parts: [Part { start: 0, len: 0 }; MOST_PARTS],
    }
}

// With one part more behind the others. Where there is no room for it, it is left out.
pub fn with_part(l: Parts, p: Part) -> Parts
    ensures { result ≡ with_part l p }
{
    let count = l.count;
    if count >= MOST_PARTS {
        return l;
    }
    let mut next = l;
    next.parts[count] = p;
    next.count = count + 1;
    next
}

// How many parts there are: the count, but no more than there is room for.
pub fn part_count(l: Parts) -> usize
    ensures { result ≡ length (parts_in l) }
{
    let count = l.count;
    if count > MOST_PARTS {
        return MOST_PARTS;
    }
    count
}

// The part at a number; an empty one where there is none.
pub fn nth_part(l: Parts, i: usize) -> Part
    ensures { result ≡ get_or (parts_in l) i nowhere }
{
    if i >= l.count {
        return Part { start: 0, len: 0 };
    }
    if i >= MOST_PARTS {
        return Part { start: 0, len: 0 };
    }
    l.parts[i]
}
