// The readers of class data, and where code and debug information lie, each over a lent file, by class, list and member: header (1 to 6), 7 for the
// class, its record, then each item on the way, whole, and 7 for the number in it; 19 last. None of them reads the map.
// A list is 0 for static fields, 1 for instance fields, 2 for direct methods, 3 for virtual methods.
#![tactic(auto)]

use header::Header;

mod members;
mod spots;

pub use members::{class_data, member, member_flags};
pub use spots::{data_spot, debug_spot, method_spot};

// Where an item lies in a file with this header.
#[derive(Clone, Copy)]
pub struct Spot {
    pub header: Header,
    pub place: u32,
}
