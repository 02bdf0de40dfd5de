// Readers 64 to 67 hand out a part of the file, or are asked with a text; 68 to 70 write to an output that is lent to them.
use asking::Question;

pub(crate) fn part(f: &[u8], q: Question) {
    if q.reader == 64 {
        asking::write_bytes(dex::signature(f));
    } else if q.reader == 65 {
        asking::write_bytes(dex::string_bytes(f, q.a));
    } else {
        asking::write_bytes(dex::line_program(f, q.a, q.b, q.c));
    }
}

pub(crate) fn sought(f: &[u8], text: &[u8], mask: u32) {
    asking::write_words(answer_rows::number_if_row(dex::find_string(f, text)), mask);
}

// Of an output as much is lent as number d says, then all of it is written.
fn class_flags(f: &[u8], q: Question, out: &mut [u8]) {
    let room = q.d as usize;
    if out.len() < room {
        return;
    }
    let got = dex::class_flags(f, q.a, &mut out[..room]);
    asking::write_words(answer_rows::flags_row(got), q.mask);
    asking::write_bytes(out);
}

fn member_flags(f: &[u8], q: Question, out: &mut [u8]) {
    let room = q.d as usize;
    if out.len() < room {
        return;
    }
    let got = dex::member_flags(f, q.a, q.b, q.c, &mut out[..room]);
    asking::write_words(answer_rows::written_row(got), q.mask);
    asking::write_bytes(out);
}

fn units(f: &[u8], q: Question, out: &mut [u16]) {
    let room = q.d as usize;
    if out.len() < room {
        return;
    }
    let got = dex::units(f, q.a, q.b, q.c, &mut out[..room]);
    asking::write_words(answer_rows::written_row(got), q.mask);
    asking::write_units(out);
}

pub(crate) fn output(f: &[u8], q: Question) {
    let mut flags = [77u8; 18];
    let mut code = [77u16; 8];
    if q.reader == 68 {
        class_flags(f, q, &mut flags);
    } else if q.reader == 69 {
        member_flags(f, q, &mut flags);
    } else {
        units(f, q, &mut code);
    }
}
