// Kinds 32 to 43: annotation items, sets, reference lists, directories, and all that lies below them.
use frame::Frame;

pub(crate) fn row(s: &[u8], kind: u8, frame: Frame, item: usize, k: u32) -> [u64; 20] {
    match kind {
        32 => answer_rows::number_row(annotation_items::annotation_item(s, frame, item).map(
            |v| v as u32,
        )),
        33 => answer_rows::annotation_row(annotation_items::annotation(s, frame, item)),
        _ => answer_rows::element_row(annotation_items::annotation_element(s, frame, item, k)),
    }
}

pub(crate) fn list_row(s: &[u8], kind: u8, frame: Frame, item: usize, k: u32) -> [u64; 20] {
    match kind {
        35 => answer_rows::number_row(annotation_lists::set_count(s, frame, item)),
        36 => answer_rows::number_row(annotation_lists::set_offset(s, frame, item, k)),
        37 => answer_rows::number_row(annotation_lists::reference_count(s, frame, item)),
        _ => answer_rows::number_row(annotation_lists::reference_offset(s, frame, item, k)),
    }
}

// A directory, and entry k of one of its lists.
pub(crate) fn directory_row(
    s: &[u8],
    kind: u8,
    frame: Frame,
    item: usize,
    list: u32,
    k: u32,
) -> [u64; 20] {
    if kind == 39 {
        return answer_rows::directory_row(annotation_directories::directory(s, frame, item).map(
            Some,
        ));
    }
    answer_rows::place_row(annotation_directories::directory_entry(s, frame, item, list, k))
}

pub(crate) fn check_row(s: &[u8], kind: u8, frame: Frame, item: usize) -> [u64; 20] {
    match kind {
        41 => answer_rows::checked_row(annotation_walk::check_set(s, frame, item)),
        42 => answer_rows::checked_row(annotation_walk::check_references(s, frame, item)),
        _ => answer_rows::checked_row(annotation_walk::check_directory(s, frame, item)),
    }
}
