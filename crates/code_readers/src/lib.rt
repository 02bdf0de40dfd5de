// The readers of code, each over a lent file, by class, list and member (class_readers): the code item whole, then 7 for the number in it; 19 last.
#![tactic(auto)]

mod methods;

pub use methods::{code, covering_try, handler, handler_count, handler_pair, try_item, units};
