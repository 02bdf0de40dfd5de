// The readers of debug information, each over a lent file, by class, list and member (class_readers): the item whole, then 7 for the number in it.
#![tactic(auto)]

mod lines;

pub use lines::{debug, debug_parameter, line_program};
