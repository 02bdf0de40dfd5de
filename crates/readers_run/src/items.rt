// Readers 56 to 59: the annotation item that 44 to 47 give the place of; 60 to 63: its element e.
use super::{notes, values};
use asking::Question;

pub(crate) fn row(f: &[u8], q: Question) -> [u64; 20] {
    let found = notes::place_row(f, q);
    let place = found[1] as usize;
    if q.reader < 60 {
        return values::row(f, 52, place, 0);
    }
    values::row(f, 53, place, q.e)
}
