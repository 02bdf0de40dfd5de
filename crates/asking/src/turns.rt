// Questions one after the other, through all cases. A case is a label, bytes, and questions about them.
ghost use Rattle.std.specs.Prelude.{◌≡◌, ◌+◌, ◌-◌, ◌*◌, ◌≤◌, ◌<◌};
ghost use Rattle.word.specs.Bytes.{part};
ghost use Rattle.asking.specs.Turns.{turn_of, to_go};

use super::{Turn, questions};
use word::Endian;

// The bytes that are asked about.
pub fn bytes_of(room: &[u8], t: Turn) -> &[u8]
    ensures { result.now ≡ part room.now t.start t.length }
{
    word::bytes_at(room, t.start as usize, t.length as usize)
}

// The questions, from the one whose turn it is.
pub fn asked_of(room: &[u8], t: Turn) -> &[u8]
    ensures { result.now ≡ part room.now t.at (t.end - t.at) }
{
    if t.end < t.at {
        return word::bytes_at(room, t.at as usize, 0);
    }
    word::bytes_at(room, t.at as usize, (t.end - t.at) as usize)
}

// A case's head: the length of what follows, of its label and of its bytes, with `front` more in front of these.
fn turn_of(head: &[u8], left: u32, front: u8) -> Turn
    ensures { result ≡ turn_of head.now left front }
{
    let start = word::u16_at(head, 4, Endian::Little) as u32;
    let length = front as u32 + word::u16_at(head, 6, Endian::Little) as u32;
    Turn {
        left,
        start,
        length,
        at: start + length,
        end: word::u32_at(head, 0, Endian::Little),
    }
}

// No question, with so many cases left.
fn none(left: u32) -> Turn
    ensures { to_go result ≡ 4294967296 * left }
{
    Turn {
        left,
        start: 0,
        length: 0,
        at: 0,
        end: 0,
    }
}

// What follows a case's head, into a room that has place for it; its label is written.
fn read_rest(room: &mut [u8], size: usize, label: usize) -> bool {
    if room.len() < size {
        return false;
    }
    io::read_full(0, &mut room[..size]);
    io::write_all(1, word::bytes_at(room, 0, label));
    io::write_all(1, b"\n");
    true
}

// A case, and its first question.
fn read_case(room: &mut [u8], left: u32, front: u8) -> Turn
    ensures { to_go result < 4294967296 * (left + 1) }
{
    let mut head = [0u8; 8];
    io::read_full(0, &mut head);
    let t = turn_of(&head, left, front);
    if read_rest(room, t.end as usize, t.start as usize) {
        return t;
    }
    none(left)
}

// The first question of so many cases.
fn first_of(room: &mut [u8], cases: u32, front: u8) -> Turn
    ensures { to_go result ≤ 4294967296 * cases - 1 }
{
    for left in (0..cases).rev() {
        let t = read_case(room, left, front);
        if t.at < t.end {
            return t;
        }
    }
    none(0)
}

// How many cases there are, and the first question.
pub fn first(room: &mut [u8], front: u8) -> Turn {
    let mut count = [0u8; 4];
    io::read_full(0, &mut count);
    first_of(room, word::u32_at(&count, 0, Endian::Little), front)
}

// An answer's line ends, and the next question comes: of the same case, or of a later one.
pub fn next(room: &mut [u8], t: Turn, front: u8) -> Turn
    ensures { to_go result ≤ to_go t - 1 }
{
    io::write_all(1, b"\n");
    let q = questions::question_of(asked_of(room, t));
    let size = q.size as u32 + q.more as u32;
    if t.at < t.end {
        if size < t.end - t.at {
            return Turn {
                left: t.left,
                start: t.start,
                length: t.length,
                at: t.at + size,
                end: t.end,
            };
        }
    }
    first_of(room, t.left, front)
}

// Each question about each case, in their order, handed to a function: the bytes that are asked about, and the questions from that one on. A case with its questions is read at a time.
pub fn each<F: Fn(&[u8], &[u8])>(front: u8, answer: F)
    requires { F.IsAlwaysCallable answer }
{
    let mut room = io::large_buffer();
    let mut turn = first(&mut room, front);
    // `while`: how many questions there are is known when the last is read.
    while turn.at < turn.end {
        answer(bytes_of(&room, turn), asked_of(&room, turn));
        turn = next(&mut room, turn, front);
    }
}
