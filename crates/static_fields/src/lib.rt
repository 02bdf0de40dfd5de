// Static fields with their values, and the first whose value has the wrong kind: header, map, 7 for the class, its record, class data whole, 7 for the field,
// static values whole, 21; then, where it is asked for, the text of a field's type.
#![tactic(auto)]

use decoded_value::Value;
use refusal::Refusal;

mod kinds;
mod pairs;
mod texts;

pub use kinds::wrong_kind;
pub use pairs::static_field;

// A static field with its value; none where the class has no class data. `stored` is false where the value is past the list, and so the zero, false or null that
// the text of the field's type calls for.
#[derive(Clone, Copy)]
pub struct StaticField {
    pub field: u32,
    pub flags: u32,
    pub stored: bool,
    pub value: Value,
}

// The first static field whose value has the wrong kind, by its number in the list and the field's; none where every kind fits.
#[derive(Clone, Copy)]
pub struct WrongKind {
    pub k: u32,
    pub field: u32,
}
