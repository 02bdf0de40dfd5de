// Which reader a question asks, and what is written of its answer.
use super::{classes, code, heads, items, notes, outputs, tables, values};
use asking::Question;

fn head_row(f: &[u8], q: Question) -> [u64; 20] {
    if q.reader < 2 {
        return heads::row(f, q.reader);
    }
    if q.reader < 8 {
        return heads::map_row(f, q.reader, q.a);
    }
    if q.reader < 12 {
        return tables::row(f, q.reader, q.a);
    }
    tables::member_row(f, q.reader, q.a, q.b)
}

fn class_row(f: &[u8], q: Question) -> [u64; 20] {
    if q.reader < 19 {
        return classes::row(f, q.reader, q.a, q.b);
    }
    if q.reader < 24 {
        return classes::data_row(f, q.reader, q.a, q.b, q.c);
    }
    if q.reader < 28 {
        return code::row(f, q);
    }
    code::handler_row(f, q)
}

fn note_row(f: &[u8], q: Question) -> [u64; 20] {
    if q.reader < 40 {
        return notes::row(f, q.reader, q.a, q.b);
    }
    if q.reader < 44 {
        return notes::count_row(f, q.reader, q.a, q.b, q.c);
    }
    if q.reader < 48 {
        return notes::place_row(f, q);
    }
    if q.reader < 54 {
        return values::row(f, q.reader, q.a as usize, q.b);
    }
    if q.reader < 56 {
        return values::static_row(f, q.reader, q.a, q.b);
    }
    items::row(f, q)
}

fn row_of(f: &[u8], q: Question) -> [u64; 20] {
    if q.reader < 16 {
        return head_row(f, q);
    }
    if q.reader < 32 {
        return class_row(f, q);
    }
    note_row(f, q)
}

// The first of the questions that are asked about a file.
pub(crate) fn answer(f: &[u8], asked: &[u8]) {
    let q = asking::question_of(asked);
    let rest = asking::rest_of(asked, q);
    if q.reader < 64 {
        asking::write_words(values::inner_row(f, row_of(f, q), rest), q.mask);
    } else if q.reader < 67 {
        outputs::part(f, q);
    } else if q.reader == 67 {
        outputs::sought(f, rest, q.mask);
    } else {
        outputs::output(f, q);
    }
}
