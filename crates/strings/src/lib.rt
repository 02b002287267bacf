// What a string may be: the characters of a port description, and how long the string of each device ID is.
// The rules name single characters and IDs; the code tests for what lies before, between and behind them, and has ranges of IDs.
#![tactic(auto)]

ghost use Rattle.std.specs.Prelude.{◌≡◌, not};
ghost use Rattle.strings.specs.Text.{char_ok, text_ok};
ghost use Rattle.strings.specs.Wants.{wanted_of};

// An octet that a port description may not have (T10). All tests are made, so that no branch depends on the octet.
fn unprintable(b: u8) -> bool
    ensures { result ≡ not (char_ok b) }
{
    let quotes = (b == b'"') | (b == b'&');
    let signs = (b == b'<') | (b == b'>');
    let brackets = (b > b'Z') & (b < b'a') & (b != b'_');
    (b < b' ') | quotes | signs | brackets | (b > b'z')
}

// Every octet is looked at, also behind one that may not be there: octets are then tested many at a time.
pub fn is_text(part: &[u8]) -> bool
    ensures { result ≡ text_ok part.now }
{
    let mut bad = false;
    for &b in part {
        bad |= unprintable(b);
    }
    !bad
}

// What the ID of a device information field asks of its string.
#[derive(Clone, Copy)]
pub enum Wanted {
    // a string of 1 to so many octets (T3)
    Text(u8),
    // a string of any length: IDs that are not read here, and reserved ones (T4, T5)
    Free,
    // nothing: the field is the vendor's (T6)
    Vendor,
}

#[tactic(auto, unfolding(crate::specs::Wants::wanted_of))]
pub fn wanted_of(id: u8) -> Wanted
    ensures { result ≡ wanted_of id }
{
    match id {
        1 => Wanted::Text(255),
        2 => Wanted::Text(6),
        3 | 4 => Wanted::Text(31),
        255 => Wanted::Vendor,
        // Those that are listed (T4) stand apart from those that are not (T5), so that an edit can tell them apart.
        20..=27 | 50..=54 | 80 => Wanted::Free,
        0 | 5..=19 | 28..=49 | 55..=79 | 81..=254 => Wanted::Free,
    }
}
