// Readers 0 and 1: the whole check and the header; 2 to 5: map and method handles.
pub(crate) fn row(f: &[u8], reader: u8) -> [u64; 20] {
    if reader == 0 {
        return answer_rows::checked_row(dex::check(f));
    }
    answer_rows::header_row(dex::header(f))
}

pub(crate) fn map_row(f: &[u8], reader: u8, a: u32) -> [u64; 20] {
    match reader {
        2 => answer_rows::number_row(dex::map_count(f)),
        3 => answer_rows::entry_row(dex::map_entry(f, a)),
        4 => answer_rows::number_row(dex::handle_count(f)),
        _ => answer_rows::handle_row(dex::handle(f, a)),
    }
}
