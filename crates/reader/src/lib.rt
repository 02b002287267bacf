// The reader: what an LLDP frame, or a bare LLDPDU, says.
// Octets come in, meaning comes out; no input, however long or short, is left without its one answer.
#![tactic(auto)]

mod frame;

pub use extension::{
    ACTIVE_NODES, ASSOCIATED_DEVICES, BATTERY_LEVEL, CHANNEL_USAGE, CPU_USAGE, Counts, ERROR_RATE,
    HDD_USAGE, LINK_QUALITY, MEMORY_USAGE, RESPONSE_TIME, RETRANSMISSIONS, SIGNAL_STRENGTH,
    address_at, counts_of, item_at, pairing_at, port_item_at,
};
pub use frame::{HEADER, outline_frame, read_frame, source_of};
pub use lldpdu::{IdPart, Outline, outline_lldpdu};
pub use naming::{Naming, Number, link_naming};
pub use reading::{Description, Link, Reading, read_lldpdu};
pub use refusal::Refusal;
pub use system::{Capabilities, System, empty_system};
pub use text::{Part, Parts, empty_parts, nth_part, part_count, text_of, with_part};
