// What the words say that a program is started with (J3): a number in decimal digits.
// Every word has an answer: a number that is too large, and a word that is no number, is the greatest number that there is.
#![tactic(auto)]

ghost use Rattle.std.specs.Prelude.{◌≡◌};
ghost use Rattle.arguments.specs.Number.{with_digit, number_in};

// The number with one digit more. The greatest stays the greatest.
#[tactic(auto, unfolding(crate::specs::Number::with_digit, crate::specs::Number::said_from, crate::specs::Number::value_from))]
fn with_digit(n: usize, octet: u8) -> usize
    ensures { result ≡ with_digit n octet }
{
    match octet {
        b'0'..=b'9' => n
            .saturating_mul(10)
            .saturating_add(usize::from(octet - b'0')),
        _ => usize::MAX,
    }
}

// The number that a word says. A port that is too large is refused with 2, and a limit that is too large takes all frames (J3).
pub fn number_in(word: &[u8]) -> usize
    ensures { result ≡ number_in word.now }
{
    if word.is_empty() {
        return usize::MAX;
    }
    word.iter().fold(0, |n, &octet| with_digit(n, octet))
}
