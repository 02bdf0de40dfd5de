// Answers as rows of twenty words, the form in which a C program takes them: specs/Words says which words each answer is.
#![tactic(auto)]

mod heads;
mod members;
mod notes;
mod rows;
mod words;

pub use heads::{class_row, header_row, number_if_row, signature_row};
pub use members::{
    code_row, data_row, debug_row, found_row, handler_row, name_row, pair_row, try_row, written_row,
};
pub use notes::{annotation_row, checked_row, directory_row, place_row};
pub use rows::{
    array_row, body_row, element_row, entry_row, flags_row, handle_row, member_row, number_row,
    picked_row, proto_row, static_row, text_row, wrong_row,
};
