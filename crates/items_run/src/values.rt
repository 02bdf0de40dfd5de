// Kinds 8 to 13: a value inside a body, and bodies by number.
use super::numbers;
use decoded_value::Value;
use refusal::Read;
use value_bodies::AnnotationHead;
use value_heads::Walk;

fn single(value: f32) -> u64 {
    if value != value {
        return 3;
    }
    if value < 2.0 {
        return 2;
    }
    1
}

fn double(value: f64) -> u64 {
    if value != value {
        return 3;
    }
    if value < 2.0 {
        return 2;
    }
    1
}

// What the float beside the bits is: not below 2 (1), below 2 (2), or none (3); 0 for other values.
fn float_of(v: Value) -> u64 {
    match v {
        Value::Float { value, .. } => single(value),
        Value::Double { value, .. } => double(value),
        _ => 0,
    }
}

// A value's words, then the place after it and what float it is.
fn decoded(s: &[u8], w: Walk, at: usize, left: u32) -> [u64; 20] {
    match decoded_value::decode_at(s, w, at, left) {
        Err(r) => numbers::refused(r),
        Ok(Read { value, next }) => {
            let mut row = answer_rows::picked_row(Ok(value));
            row[4] = next as u64;
            row[5] = float_of(value);
            row
        }
    }
}

fn gone_over(s: &[u8], w: Walk, at: usize, left: u32) -> [u64; 20] {
    match encoded_value::value(s, w, at, left) {
        Err(r) => numbers::refused(r),
        Ok(next) => numbers::four(next as u64, 0, 0, 0),
    }
}

fn head(s: &[u8], w: Walk, at: usize) -> [u64; 20] {
    match value_bodies::annotation_head(s, w, at) {
        Err(r) => numbers::refused(r),
        Ok(AnnotationHead { type_index, count }) => numbers::four(
            type_index as u64,
            count as u64,
            0,
            0,
        ),
    }
}

// At a place, with so many bodies left to go into, or the number of a value.
pub(crate) fn row(s: &[u8], kind: u8, w: Walk, at: usize, k: u32) -> [u64; 20] {
    match kind {
        8 => decoded(s, w, at, k),
        9 => gone_over(s, w, at, k),
        10 => answer_rows::number_row(value_bodies::array_count(s, w, at)),
        11 => answer_rows::picked_row(value_bodies::array_value(s, w, at, k)),
        12 => head(s, w, at),
        _ => answer_rows::element_row(value_bodies::annotation_element(s, w, at, k)),
    }
}
