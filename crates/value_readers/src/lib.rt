// Values by place and by class, and annotation items by place: header, map, 7 for a place outside the data section or a number, the item whole,
// 7 for the inner number.
#![tactic(auto)]

mod bodies;
mod items;
mod opening;
mod statics;

pub use bodies::{annotation_body, annotation_body_element, array, array_value};
pub use items::{annotation, annotation_element};
pub use statics::{static_value, static_value_count, value_in, values_in};

// How many values an array has, and its length in bytes.
#[derive(Clone, Copy)]
pub struct ArrayOutline {
    pub count: u32,
    pub length: usize,
}

// The type of an annotation body, how many elements it has, and its length in bytes.
#[derive(Clone, Copy)]
pub struct BodyOutline {
    pub type_index: u32,
    pub count: u32,
    pub length: usize,
}
