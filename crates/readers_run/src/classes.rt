// Readers 16 to 18: classes and their interfaces; 19 to 22: class data, members and static values.
pub(crate) fn row(f: &[u8], reader: u8, a: u32, b: u32) -> [u64; 20] {
    match reader {
        16 => answer_rows::class_row(dex::class(f, a)),
        17 => answer_rows::number_row(dex::interface_count(f, a)),
        _ => answer_rows::number_row(dex::interface(f, a, b)),
    }
}

pub(crate) fn data_row(f: &[u8], reader: u8, a: u32, b: u32, c: u32) -> [u64; 20] {
    match reader {
        19 => answer_rows::data_row(dex::class_data(f, a)),
        20 => answer_rows::found_row(dex::member(f, a, b, c)),
        21 => answer_rows::number_row(dex::static_value_count(f, a)),
        _ => answer_rows::picked_row(dex::static_value(f, a, b)),
    }
}
