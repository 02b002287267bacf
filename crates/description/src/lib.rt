// Whether what a description says keeps the rules (W2, W3, W5, W7), by the number of octets of each part, and of some by the octets.
// One function to a rule; any description and any text get an answer, and where the parts lie is not asked here.
#![tactic(auto)]

ghost use Rattle.std.specs.Prelude.{◌≡◌, length};
ghost use Rattle.tally.specs.Tests.{all};
ghost use Rattle.text.specs.Part.{text_of, optional_text};
ghost use Rattle.reading.specs.Meaning.{link_meant, said_by};
ghost use Rattle.description.specs.Rules.{words_sound, string_rules, table_sound, link_sound, content_sound, extension_sound, listed_sound, list_sound, goodbye_rules, live_rules, timely_of, sound_of};

use extension::extension_fits;
use fields::{Field, field_of};
use ids::{chassis_fits, port_fits};
use reading::{Description, Link};
use system::{system_absent, system_fits};
use text::{Part, text_of};

fn count_of(text: &[u8], p: Part) -> usize
    ensures { result ≡ length (text_of text.now p) }
{
    text_of(text, p).len()
}

// The port description, as the reader judges it (T10).
#[tactic(auto, unfolding(fields::specs::Field::field_of, fields::specs::Field::description_of))]
fn words_sound(words: &[u8]) -> bool
    ensures { result ≡ words_sound words.now }
{
    matches!(field_of(4, words), Field::Says { .. })
}

// The strings of IDs 1 to 4 (T3).
fn strings_sound(text: &[u8], d: Description) -> bool
    ensures { result ≡ all (string_rules (said_by text.now d)) }
{
    count_of(text, d.category) <= 255
        && count_of(text, d.manufacturer) <= 6
        && count_of(text, d.model) <= 31
        && count_of(text, d.number) <= 31
}

// Link information with n octets of interface type, m of port number and a of addresses (T7, W5).
fn table_sound(n: usize, m: usize, a: usize) -> bool
    ensures { result ≡ table_sound n m a }
{
    1 <= n && n <= 4 && 1 <= m && m <= 4 && a % 6 == 0 && a <= 504 - n - m
}

fn link_sound(text: &[u8], l: Option<Link>) -> bool
    ensures { result ≡ link_sound (link_meant text.now l) }
{
    let Some(t) = l else {
        return true;
    };
    table_sound(
        count_of(text, t.interface),
        count_of(text, t.port),
        count_of(text, t.addresses),
    )
}

// The octets of extension link information behind the subtype (T11, W5).
fn content_sound(content: &[u8]) -> bool
    ensures { result ≡ content_sound content.now }
{
    content.len() <= 507 && extension_fits(content)
}

fn extension_sound(text: &[u8], e: Option<Part>) -> bool
    ensures { result ≡ extension_sound (optional_text text.now e) }
{
    e.is_none_or(|p| content_sound(text_of(text, p)))
}

// An address list with n octets of addresses (T8, W5).
fn listed_sound(n: usize) -> bool
    ensures { result ≡ listed_sound n }
{
    n % 6 == 0 && n <= 506
}

fn list_sound(text: &[u8], l: Option<Part>) -> bool
    ensures { result ≡ list_sound (optional_text text.now l) }
{
    l.is_none_or(|a| listed_sound(count_of(text, a)))
}

// With seconds 0 there is nothing but chassis and port ID (W3).
fn goodbye_sound(text: &[u8], d: Description) -> bool
    ensures { result ≡ all (goodbye_rules (said_by text.now d)) }
{
    count_of(text, d.words) == 0
        && count_of(text, d.category) == 0
        && count_of(text, d.manufacturer) == 0
        && count_of(text, d.model) == 0
        && count_of(text, d.number) == 0
        && d.link.is_none()
        && d.extension.is_none()
        && d.list.is_none()
        && system_absent(text, d.system)
}

// With seconds above 0 category and model number are there (W2).
fn live_sound(text: &[u8], d: Description) -> bool
    ensures { result ≡ all (live_rules (said_by text.now d)) }
{
    count_of(text, d.category) >= 1 && count_of(text, d.number) >= 1
}

// What must be there, or must not, by the seconds (W2, W3).
fn is_timely(text: &[u8], d: Description) -> bool
    ensures { result ≡ timely_of (said_by text.now d) }
{
    if d.seconds == 0 {
        goodbye_sound(text, d)
    } else {
        live_sound(text, d)
    }
}

#[tactic(auto, unfolding(crate::specs::Rules::sound_of))]
pub fn is_sound(text: &[u8], d: Description) -> bool
    ensures { result ≡ sound_of (said_by text.now d) }
{
    chassis_fits(d.chassis.subtype, text_of(text, d.chassis.octets))
        && port_fits(d.port.subtype, text_of(text, d.port.octets))
        && words_sound(text_of(text, d.words))
        && strings_sound(text, d)
        && link_sound(text, d.link)
        && extension_sound(text, d.extension)
        && list_sound(text, d.list)
        && system_fits(text, d.system)
        && is_timely(text, d)
}
