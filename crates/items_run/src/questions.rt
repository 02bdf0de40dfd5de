// Which reader of items a question asks, and what is written of its answer.
use super::{members, notes, numbers, outputs, values};
use asking::Question;
use frame::Frame;
use word::Endian;

fn order_of(b: u8) -> Endian {
    if b == 0 {
        return Endian::Little;
    }
    Endian::Big
}

fn count_at(all: &[u8], at: usize) -> u32 {
    word::u16_at(all, at, Endian::Little) as u32
}

// What the items are read against: the first 16 bytes.
fn frame_of(all: &[u8]) -> Frame {
    Frame {
        order: order_of(word::byte_at(all, 0)),
        start: count_at(all, 2) as usize,
        strings: count_at(all, 4),
        types: count_at(all, 6),
        protos: count_at(all, 8),
        fields: count_at(all, 10),
        methods: count_at(all, 12),
        handles: count_at(all, 14),
    }
}

// The bytes behind these.
fn items_of(all: &[u8]) -> &[u8] {
    if all.len() < 16 {
        return all;
    }
    &all[16..]
}

fn note_row(s: &[u8], frame: Frame, q: Question) -> [u64; 20] {
    let item = q.a as usize;
    if q.reader < 35 {
        return notes::row(s, q.reader, frame, item, q.b);
    }
    if q.reader < 39 {
        return notes::list_row(s, q.reader, frame, item, q.b);
    }
    if q.reader < 41 {
        return notes::directory_row(s, q.reader, frame, item, q.b, q.c);
    }
    notes::check_row(s, q.reader, frame, item)
}

fn item_row(s: &[u8], frame: Frame, q: Question) -> [u64; 20] {
    let item = q.a as usize;
    if q.reader < 20 {
        return members::row(s, q.reader, frame, item, q.b, q.c);
    }
    if q.reader < 22 {
        return members::code_row(s, q.reader, frame, item, q.b);
    }
    if q.reader < 32 {
        return members::handler_row(s, q.reader, frame, item, q.b, q.c);
    }
    note_row(s, frame, q)
}

fn row_of(s: &[u8], frame: Frame, q: Question) -> [u64; 20] {
    let a = q.a as usize;
    let b = q.b as usize;
    if q.reader < 8 {
        return numbers::row(s, q.reader, a, b);
    }
    if q.reader < 16 {
        return values::row(s, q.reader, value_heads::walk_of(frame, b), a, q.c);
    }
    item_row(s, frame, q)
}

// The first of the questions that are asked about items.
pub(crate) fn answer(all: &[u8], asked: &[u8]) {
    let frame = frame_of(all);
    let s = items_of(all);
    let q = asking::question_of(asked);
    if q.reader / 2 == 3 {
        let order = frame.order;
        outputs::output(s, order, q);
    } else {
        asking::write_words(row_of(s, frame, q), q.mask);
    }
}
