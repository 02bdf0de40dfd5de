// The readers of header, map, records, texts and type lists, each over a lent file: header (1 to 6), the map where it is read (8, 9, 16),
// 7 for a number that is not there, the record, then each item on the way.
#![tactic(auto)]

use header::Header;

mod flags;
mod head;
mod lists;
mod strings;
mod tables;

pub use flags::class_flags;
pub use head::{handle_count, header, map_count, map_entry, open, signature};
pub use lists::{interface, interface_count, parameter, parameter_count};
pub use strings::{find_string, string, string_bytes};
pub use tables::{class, class_in, field, handle, method, proto, type_name};

// A file's header, and how many method handles its map gives.
#[derive(Clone, Copy)]
pub struct Opened {
    pub header: Header,
    pub handles: u32,
}
