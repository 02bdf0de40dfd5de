// Kinds 0 to 4: LEB128 numbers and texts.
use decoded_value::Value;
use refusal::{Read, Refusal};
use std::cmp::Ordering;

// An answer of four words, and a refusal.
pub(crate) fn four(a: u64, b: u64, c: u64, d: u64) -> [u64; 20] {
    [0, a, b, c, d, 0, 0, 0, 0, 0, 0, 0, 0, 0, 0, 0, 0, 0, 0, 0]
}

pub(crate) fn refused(r: Refusal) -> [u64; 20] {
    answer_rows::number_row(Err(r))
}

fn unsigned(s: &[u8], at: usize, item: usize) -> [u64; 20] {
    match leb128::uleb(s, at, item) {
        Err(r) => refused(r),
        Ok(Read { value, next }) => four(value as u64, next as u64, 0, 0),
    }
}

// As an int value, with its magnitude and the place after it.
fn signed(s: &[u8], at: usize, item: usize) -> [u64; 20] {
    match leb128::sleb(s, at, item) {
        Err(r) => refused(r),
        Ok(Read { value, next }) => {
            let row = answer_rows::picked_row(Ok(Value::Int(value)));
            four(
                row[1],
                row[2],
                sign::magnitude_of(value) as u64,
                next as u64,
            )
        }
    }
}

// Is there a number, the number, and the place after it.
fn plus_one(s: &[u8], at: usize, item: usize) -> [u64; 20] {
    match leb128::uleb_p1(s, at, item) {
        Err(r) => refused(r),
        Ok(Read { value: None, next }) => four(0, 0, next as u64, 0),
        Ok(
            Read {
                value: Some(value),
                next,
            },
        ) => four(1, value as u64, next as u64, 0),
    }
}

fn order(a: &[u8], b: &[u8]) -> [u64; 20] {
    match text_order::compare(a, b) {
        Ordering::Less => four(0, 0, 0, 0),
        Ordering::Equal => four(1, 0, 0, 0),
        Ordering::Greater => four(2, 0, 0, 0),
    }
}

// An item at b, whose number is at a; of two texts the first has a bytes, the second b.
pub(crate) fn row(s: &[u8], kind: u8, a: usize, b: usize) -> [u64; 20] {
    match kind {
        0 => unsigned(s, a, b),
        1 => signed(s, a, b),
        2 => plus_one(s, a, b),
        3 => answer_rows::text_row(text::string_at(s, a)),
        _ => order(word::bytes_at(s, 0, a), word::bytes_at(s, a, b)),
    }
}

pub(crate) fn written_row(a: Result<u32, Refusal>) -> [u64; 20] {
    answer_rows::written_row(a.map(|n| Some(n as usize)))
}
