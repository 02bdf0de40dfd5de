// Readers 24 to 27: the code of member c of list b of class a, with its tries; 28 to 31: its handlers and debug information.
use asking::Question;

pub(crate) fn row(f: &[u8], q: Question) -> [u64; 20] {
    match q.reader {
        24 => answer_rows::code_row(dex::code(f, q.a, q.b, q.c)),
        25 => answer_rows::try_row(dex::try_item(f, q.a, q.b, q.c, q.d)),
        26 => answer_rows::number_if_row(dex::covering_try(f, q.a, q.b, q.c, q.d)),
        _ => answer_rows::written_row(dex::handler_count(f, q.a, q.b, q.c)),
    }
}

pub(crate) fn handler_row(f: &[u8], q: Question) -> [u64; 20] {
    match q.reader {
        28 => answer_rows::handler_row(dex::handler(f, q.a, q.b, q.c, q.d)),
        29 => answer_rows::pair_row(dex::handler_pair(f, q.a, q.b, q.c, q.d, q.e)),
        30 => answer_rows::debug_row(dex::debug(f, q.a, q.b, q.c)),
        _ => answer_rows::name_row(dex::debug_parameter(f, q.a, q.b, q.c, q.d)),
    }
}
