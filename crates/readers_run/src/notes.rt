// Readers 32 to 36: the annotation directory of class a and its entries; 40 to 47: the annotations of a set.
use asking::Question;

pub(crate) fn row(f: &[u8], reader: u8, a: u32, b: u32) -> [u64; 20] {
    match reader {
        33 => answer_rows::place_row(dex::field_entry(f, a, b)),
        34 => answer_rows::place_row(dex::method_entry(f, a, b)),
        35 => answer_rows::place_row(dex::parameter_entry(f, a, b)),
        36 => answer_rows::number_row(dex::parameter_set_count(f, a, b)),
        _ => answer_rows::directory_row(dex::directory(f, a)),
    }
}

// How many there are: of the class (40), of entry b of its fields (41) or methods (42), of parameter c of entry b (43).
pub(crate) fn count_row(f: &[u8], reader: u8, a: u32, b: u32, c: u32) -> [u64; 20] {
    match reader {
        41 => answer_rows::number_row(dex::field_annotation_count(f, a, b)),
        42 => answer_rows::number_row(dex::method_annotation_count(f, a, b)),
        43 => answer_rows::number_row(dex::parameter_annotation_count(f, a, b, c)),
        _ => answer_rows::number_row(dex::class_annotation_count(f, a)),
    }
}

// Where annotation d is, of the class (0), of entry b of its fields (1) or methods (2), of parameter c of entry b (3).
pub(crate) fn place_row(f: &[u8], q: Question) -> [u64; 20] {
    let of = q.reader % 4;
    match of {
        1 => answer_rows::number_row(dex::field_annotation_place(f, q.a, q.b, q.d)),
        2 => answer_rows::number_row(dex::method_annotation_place(f, q.a, q.b, q.d)),
        3 => answer_rows::number_row(dex::parameter_annotation_place(f, q.a, q.b, q.c, q.d)),
        _ => answer_rows::number_row(dex::class_annotation_place(f, q.a, q.d)),
    }
}
