// Fields: what one TLV behind the first three says, from its own information string and nothing behind it.
// Port description (type 4), system fields (types 5 to 8) and the TTC fields of subtypes 1 to 4; everything else is skipped.
#![tactic(auto)]

ghost use Rattle.std.specs.Prelude.{◌≡◌, ◌≤◌, length};
ghost use Rattle.tally.specs.Tests.{pick};
ghost use Rattle.fields.specs.Device.{device_of};
ghost use Rattle.fields.specs.Field.{description_of, management_ok, link_of, list_of, extension_of, is_ttc, ttc_of, unread, field_of};
ghost use Rattle.fields.specs.declared.Field.TheVariants.{Skipped, Malformed, Says};

use extension::extension_fits;
use links::link_fits;
use octets::octet;
use strings::{Wanted, is_text, wanted_of};

// What a field can be about. Topics 1 to 4 are the device information of that ID.
pub const PORT_DESCRIPTION: usize = 0;

pub const CATEGORY: usize = 1;

pub const MANUFACTURER: usize = 2;

pub const MODEL_NAME: usize = 3;

pub const MODEL_NUMBER: usize = 4;

pub const LINK: usize = 5;

pub const ADDRESS_LIST: usize = 6;

pub const EXTENSION: usize = 7;

pub const SYSTEM_NAME: usize = 8;

pub const SYSTEM_DESCRIPTION: usize = 9;

pub const CAPABILITIES: usize = 10;

// How many topics there are of which one content is read; their numbers are below this.
pub const TOPICS: usize = 11;

// The one topic of which several contents are read (S5).
pub const MANAGEMENT: usize = TOPICS;

// What a TLV says: nothing that is read here, something that is not well formed, or the content of a topic,
// which is its information string without the first `skip` octets.
#[derive(Clone, Copy)]
pub enum Field {
    Skipped,
    Malformed,
    Says { topic: usize, skip: usize },
}

// The content of a topic, where the field is as it must be (A2); where it is not, what it then counts as.
fn says_if(right: bool, topic: usize, skip: usize, otherwise: Field) -> Field
    ensures { result ≡ pick right (Says topic skip) otherwise }
{
    if right {
        Field::Says { topic, skip }
    } else {
        otherwise
    }
}

// A topic whose content is the whole information string.
fn whole(topic: usize) -> Field
    ensures { result ≡ Says topic 0 }
{
    Field::Says { topic, skip: 0 }
}

// Port description (T10).
#[tactic(auto, unfolding(crate::specs::Field::description_of))]
fn description(part: &[u8]) -> Field
    ensures { result ≡ description_of part.now }
{
    says_if(
        part.len() <= 255 && is_text(part),
        PORT_DESCRIPTION,
        0,
        Field::Malformed,
    )
}

// Whether a management address may have so many octets (S3).
pub fn management_fits(n: usize) -> bool
    ensures { result ≡ management_ok n }
{
    n >= 9 && n <= 167
}

// Device information (T2). L is compared before the string's own length is believed.
#[tactic(auto, unfolding(crate::specs::Device::device_of))]
fn device(part: &[u8]) -> Field
    ensures { result ≡ device_of part.now }
{
    let n = part.len();
    if n < 5 {
        return Field::Malformed;
    }
    let id = octet(part, 4);
    let count = octet(part, 5);
    let whole = n == 6 + count as usize;
    match wanted_of(id) {
        Wanted::Text(most) => says_if(
            whole && count >= 1 && count <= most,
            id as usize,
            6,
            Field::Malformed,
        ),
        Wanted::Free if !whole => Field::Malformed,
        _ => Field::Skipped,
    }
}

// Link information (T7).
#[tactic(auto, unfolding(crate::specs::Field::link_of))]
fn link(part: &[u8]) -> Field
    ensures { result ≡ link_of part.now }
{
    says_if(link_fits(part), LINK, 4, Field::Malformed)
}

// Address list (T8): k, k addresses, and no octet more.
#[tactic(auto, unfolding(crate::specs::Field::list_of, links::specs::Link::list_ok))]
fn address_list(part: &[u8]) -> Field
    ensures { result ≡ list_of part.now }
{
    let k = octet(part, 4) as usize;
    says_if(part.len() == 5 + 6 * k, ADDRESS_LIST, 5, Field::Malformed)
}

// Extension link information (T11). One that is not well formed is passed over and spoils nothing (H1).
#[tactic(auto, unfolding(crate::specs::Field::extension_of))]
fn extension(part: &[u8]) -> Field
    requires { 4 ≤ length part.now }
    ensures { result ≡ extension_of part.now }
{
    says_if(extension_fits(&part[4..]), EXTENSION, 4, Field::Skipped)
}

// The organization code E0-27-1A (T1).
#[tactic(auto, unfolding(crate::specs::Field::is_ttc))]
pub fn is_ttc(part: &[u8]) -> bool
    ensures { result ≡ is_ttc part.now }
{
    octet(part, 0) == 0xE0 && octet(part, 1) == 0x27 && octet(part, 2) == 0x1A
}

// A TTC field by its subtype (T1, T9).
#[tactic(auto, unfolding(crate::specs::Field::ttc_of))]
fn ttc(part: &[u8]) -> Field
    ensures { result ≡ ttc_of part.now }
{
    match octet(part, 3) {
        1 => device(part),
        2 => link(part),
        3 => address_list(part),
        4 => extension(part),
        _ => Field::Skipped,
    }
}

// Whether nothing of a TLV is read: its type is above 8, and it is no TTC field (L9, T1).
#[tactic(auto, unfolding(crate::specs::Field::unread))]
pub fn is_unread(kind: u8, part: &[u8]) -> bool
    ensures { result ≡ unread kind part.now }
{
    kind > 8 && !(kind == 127 && is_ttc(part))
}

// What a TLV of a type says, given its information string. Types 5 to 7 are noted whatever their length: the first of each decides (S4).
// A management address of a wrong length is passed over and spoils nothing (S5, H1).
#[tactic(auto, unfolding(crate::specs::Field::field_of, crate::specs::Field::management_of))]
pub fn field_of(kind: u8, part: &[u8]) -> Field
    ensures { result ≡ field_of kind part.now }
{
    match kind {
        4 => description(part),
        5 => whole(SYSTEM_NAME),
        6 => whole(SYSTEM_DESCRIPTION),
        7 => whole(CAPABILITIES),
        8 if management_fits(part.len()) => whole(MANAGEMENT),
        127 if is_ttc(part) => ttc(part),
        _ => Field::Skipped,
    }
}
