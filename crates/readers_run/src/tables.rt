// Readers 8 to 11: strings, types, protos and the number of their parameters; 12 to 14: parameters, fields and methods.
pub(crate) fn row(f: &[u8], reader: u8, a: u32) -> [u64; 20] {
    match reader {
        8 => answer_rows::text_row(dex::string(f, a)),
        9 => answer_rows::number_row(dex::type_name(f, a)),
        10 => answer_rows::proto_row(dex::proto(f, a)),
        _ => answer_rows::number_row(dex::parameter_count(f, a)),
    }
}

pub(crate) fn member_row(f: &[u8], reader: u8, a: u32, b: u32) -> [u64; 20] {
    match reader {
        12 => answer_rows::number_row(dex::parameter(f, a, b)),
        13 => answer_rows::member_row(dex::field(f, a)),
        _ => answer_rows::member_row(dex::method(f, a)),
    }
}
