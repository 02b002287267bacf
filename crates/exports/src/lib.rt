// The calls from C (X1): each takes numbers and lent slices of octets, and returns a refusal number, 0 where there is none.
// They are thin: the call that a caller of ours has is made on what the octets mean, and nothing is stored before every length is known to be right.
#![tactic(auto)]

mod calls;
mod frames;
mod looks;
mod sizes;

pub use calls::{
    tambolune_frame_on_port, tambolune_how_many, tambolune_link_lost, tambolune_seconds_passed,
    tambolune_start, tambolune_who_sees,
};
pub use frames::{tambolune_judge, tambolune_read, tambolune_read_lldpdu, tambolune_write};
pub use looks::tambolune_compare;
pub use sizes::{
    tambolune_size_address, tambolune_size_buffer, tambolune_size_compared, tambolune_size_count,
    tambolune_size_description, tambolune_size_entry, tambolune_size_header, tambolune_size_judged,
    tambolune_size_numbers, tambolune_size_place, tambolune_size_places, tambolune_size_ports,
    tambolune_size_reply, tambolune_size_senders, tambolune_size_sight, tambolune_size_verdict,
    tambolune_size_written,
};
