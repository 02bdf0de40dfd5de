// Readers 48 to 53: the body or the annotation item at a place; 54 and 55: static fields with their values.
pub(crate) fn row(f: &[u8], reader: u8, place: usize, k: u32) -> [u64; 20] {
    match reader {
        49 => answer_rows::picked_row(dex::array_value(f, place, k)),
        50 => answer_rows::body_row(dex::annotation_body(f, place)),
        51 => answer_rows::element_row(dex::annotation_body_element(f, place, k)),
        52 => answer_rows::annotation_row(dex::annotation(f, place)),
        53 => answer_rows::element_row(dex::annotation_element(f, place, k)),
        _ => answer_rows::array_row(dex::array(f, place)),
    }
}

pub(crate) fn static_row(f: &[u8], reader: u8, c: u32, k: u32) -> [u64; 20] {
    if reader == 54 {
        return answer_rows::static_row(dex::static_field(f, c, k));
    }
    answer_rows::wrong_row(dex::wrong_kind(f, c))
}

// The reader for a step into a nested value: 255 asks for the body's size, any other number for that value or element.
fn reader_of(kind: u64, k: u8) -> u8 {
    if kind == 0x1c {
        if k == 255 {
            return 48;
        }
        return 49;
    }
    if k == 255 {
        return 50;
    }
    51
}

fn step_row(f: &[u8], v: [u64; 20], k: u8) -> [u64; 20] {
    row(f, reader_of(v[1], k), v[2] as usize, k as u32)
}

// Along a path of such steps.
pub(crate) fn inner_row(f: &[u8], start: [u64; 20], path: &[u8]) -> [u64; 20] {
    let mut at = start;
    for k in path {
        let next = step_row(f, at, *k);
        at = next;
    }
    at
}
