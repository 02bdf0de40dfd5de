// Kinds 16 to 24: debug information, class data and code items. Their answers have the words of the readers' answers.
use class_data::Counts;
use frame::Frame;
use refusal::{Read, Refusal};

// The counts, and where the class data ends.
fn data_row(a: Result<Read<Counts>, Refusal>) -> [u64; 20] {
    match a {
        Err(r) => answer_rows::data_row(Err(r)),
        Ok(
            Read {
                value: counts,
                next: end,
            },
        ) => {
            let mut row = answer_rows::data_row(Ok(Some(counts)));
            row[5] = end as u64;
            row
        }
    }
}

pub(crate) fn row(s: &[u8], kind: u8, frame: Frame, item: usize, b: u32, c: u32) -> [u64; 20] {
    match kind {
        16 => answer_rows::debug_row(debug_info::debug_at(s, frame.strings, item).map(Some)),
        17 => answer_rows::name_row(debug_info::name_at(s, frame.strings, item, b).map(Some)),
        18 => data_row(class_data::class_data_at(s, frame, item)),
        _ => answer_rows::found_row(class_data::member_at(s, frame, item, b, c).map(Some)),
    }
}

pub(crate) fn code_row(s: &[u8], kind: u8, frame: Frame, item: usize, b: u32) -> [u64; 20] {
    if kind == 20 {
        return answer_rows::code_row(code_item::code_at(s, frame, item).map(Some));
    }
    answer_rows::try_row(code_item::try_at(s, frame, item, b).map(Some))
}

pub(crate) fn handler_row(
    s: &[u8],
    kind: u8,
    frame: Frame,
    item: usize,
    b: u32,
    c: u32,
) -> [u64; 20] {
    match kind {
        22 => answer_rows::handler_row(code_item::handler_at(s, frame, item, b).map(Some)),
        23 => answer_rows::pair_row(code_item::pair_at(s, frame, item, b, c).map(Some)),
        _ => answer_rows::number_if_row(code_item::covering_try(s, frame, item, b)),
    }
}
