// One TLV of an announcement, put into a lent output: the first three, the fields, and the header that End has alone.
// Every function puts its octets behind what was put before; what does not fit is left out.
#![tactic(auto, unfolding(output::specs::Output::puts))]

ghost use Rattle.std.specs.Prelude.{◌≡◌, ◌/◌, ◌%◌, [], ◌∷◌};
ghost use Rattle.std.proofs.Math.Option.{some};
ghost use Rattle.output.specs.Output.{Put};
ghost use Rattle.octets.specs.Header.{high, low};
ghost use Rattle.text.specs.Part.{text_of};
ghost use Rattle.ids.specs.Id.{id_meant};
ghost use Rattle.system.specs.System.{flags};
ghost use Rattle.tlvs.specs.Tlvs.{tlv, written, octets_of, id_tlv, seconds_tlv, flags_tlv, device_tlv, extension_tlv, link_info, unless_empty, if_linked, if_listed, countable, countable_link, countable_list};

use ids::IdPart;
use octets::{high_of, low_of};
use output::Output;
use text::{Part, text_of};

// The most that an octet counts. A field with more of something is left out; no rule allows it (T2, T7, T8).
const MOST: usize = 255;

// An octet, mostly a count, and octets behind it.
fn put_counted(out: &mut Output, n: u8, src: &[u8])
    ensures { Put (n ∷ src.now) out.old out.new }
{
    out.put_octet(n);
    out.put_all(src);
}

// The two octets of a TLV header (L1).
pub fn put_head(out: &mut Output, kind: u8, len: usize)
    ensures { Put (high kind len ∷ low len ∷ []) out.old out.new }
{
    out.put_octet(high_of(kind, len));
    out.put_octet(low_of(len));
}

// The header of a TTC field, its organization and its subtype (T1).
fn put_ttc(out: &mut Output, subtype: u8, len: usize)
    ensures { Put (high 127 len ∷ low len ∷ 0xE0 ∷ 0x27 ∷ 0x1A ∷ subtype ∷ []) out.old out.new }
{
    put_head(out, 127, len);
    out.put_octet(0xE0);
    out.put_octet(0x27);
    out.put_octet(0x1A);
    out.put_octet(subtype);
}

// A TLV that is an ID: TLV 1 of a chassis, TLV 2 of a port (L3, L4).
pub fn put_id(out: &mut Output, kind: u8, text: &[u8], id: IdPart)
    ensures { Put (written (id_tlv kind (id_meant text.now id))) out.old out.new }
{
    let octets = text_of(text, id.octets);
    put_head(out, kind, 1 + octets.len());
    put_counted(out, id.subtype, octets);
}

// A number of two octets, high octet first.
fn put_pair(out: &mut Output, n: u16)
    ensures { Put (n / 256 ∷ n % 256 ∷ []) out.old out.new }
{
    out.put_octet((n / 256) as u8);
    out.put_octet((n % 256) as u8);
}

// TLV 3 (L5).
pub fn put_seconds(out: &mut Output, seconds: u16)
    ensures { Put (written (seconds_tlv seconds)) out.old out.new }
{
    put_head(out, 3, 2);
    put_pair(out, seconds);
}

// A TLV whose information string is at hand, as that of a management address is (L1, S3).
pub fn put_tlv(out: &mut Output, kind: u8, body: &[u8])
    ensures { Put (written (tlv kind body.now)) out.old out.new }
{
    put_head(out, kind, body.len());
    out.put_all(body);
}

// A string that is a TLV by itself, if it is not empty: port description, system name, system description (T10, S1).
pub fn put_string(out: &mut Output, kind: u8, text: &[u8], p: Part)
    ensures { Put (octets_of (unless_empty (tlv kind) (text_of text.now p))) out.old out.new }
{
    let string = text_of(text, p);
    if string.is_empty() {
        return;
    }
    put_tlv(out, kind, string);
}

// Capabilities: two sets of flags (S2).
pub fn put_flags(out: &mut Output, able: u16, enabled: u16)
    ensures { Put (written (flags_tlv (flags able enabled))) out.old out.new }
{
    put_head(out, 7, 4);
    put_pair(out, able);
    put_pair(out, enabled);
}

// Device information, if its string is not empty (T2, T3).
pub fn put_device(out: &mut Output, id: u8, text: &[u8], p: Part)
    ensures { Put (octets_of (unless_empty (device_tlv id) (countable (text_of text.now p)))) out.old out.new }
{
    let string = text_of(text, p);
    let n = string.len();
    if n == 0 || n > MOST {
        return;
    }
    put_ttc(out, 1, 6 + n);
    out.put_octet(id);
    put_counted(out, n as u8, string);
}

// Link information (T7).
pub fn put_table(out: &mut Output, interface: &[u8], port: &[u8], addresses: &[u8])
    ensures { Put (octets_of (if_linked (countable_link (some (link_info interface.now port.now addresses.now))))) out.old out.new }
{
    let n = interface.len();
    let m = port.len();
    let k = addresses.len();
    if n > MOST || m > MOST || k / 6 > MOST {
        return;
    }
    put_ttc(out, 2, 7 + n + m + k);
    put_counted(out, n as u8, interface);
    put_counted(out, m as u8, port);
    put_counted(out, (k / 6) as u8, addresses);
}

// Extension link information, whose octets behind the subtype are at hand (T11).
pub fn put_extended(out: &mut Output, content: &[u8])
    ensures { Put (written (extension_tlv content.now)) out.old out.new }
{
    put_ttc(out, 4, 4 + content.len());
    out.put_all(content);
}

// An address list (T8).
pub fn put_listed(out: &mut Output, addresses: &[u8])
    ensures { Put (octets_of (if_listed (countable_list (some addresses.now)))) out.old out.new }
{
    let k = addresses.len();
    if k / 6 > MOST {
        return;
    }
    put_ttc(out, 3, 5 + k);
    put_counted(out, (k / 6) as u8, addresses);
}
