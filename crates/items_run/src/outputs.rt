// Kinds 6 and 7: what is written to a lent output. As much of it is lent as number d says, then all of it is written.
use super::numbers;
use asking::Question;
use word::Endian;

fn flags(q: Question, out: &mut [u8]) {
    let room = q.d as usize;
    if out.len() < room {
        return;
    }
    let got = access_flags::flags_into(q.a, q.b == 1, &mut out[..room]);
    asking::write_words(answer_rows::flags_row(got), q.mask);
    asking::write_bytes(out);
}

fn units(s: &[u8], order: Endian, q: Question, out: &mut [u16]) {
    let room = q.d as usize;
    if out.len() < room {
        return;
    }
    let got = code_units::units_into(s, order, q.a as usize, q.b, &mut out[..room]);
    asking::write_words(numbers::written_row(got), q.mask);
    asking::write_units(out);
}

pub(crate) fn output(s: &[u8], order: Endian, q: Question) {
    let mut bytes = [77u8; 18];
    let mut code = [77u16; 8];
    if q.reader == 6 {
        flags(q, &mut bytes);
    } else {
        units(s, order, q, &mut code);
    }
}
