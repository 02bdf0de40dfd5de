// Why something failed, in the system's words.
use std::env::FillError;
use std::io::{Cursor, Write};

// What `io::Error` puts behind the system's words, before the number of the error.
const NUMBER: &str = " (os error ";

// The numbers of two errors: an argument that is not there, and one that is too long.
const INVALID_ARGUMENT: i32 = 22;

const NAME_TOO_LONG: i32 = 36;

// Why there is no argument.
pub(crate) fn of_argument(error: FillError) -> std::io::Error {
    match error {
        FillError::NotPresent => std::io::Error::from_raw_os_error(INVALID_ARGUMENT),
        FillError::TooLong => std::io::Error::from_raw_os_error(NAME_TOO_LONG),
    }
}

// The words of an error's text, without its number.
fn without_number(text: &[u8]) -> &[u8] {
    match std::str::from_utf8(text) {
        Err(_) => text,
        Ok(words) => match words.split_once(NUMBER) {
            None => text,
            Some((front, _)) => front.as_bytes(),
        },
    }
}

// What was written of a lent room.
pub(crate) fn front_of(room: &[u8], written: u64) -> &[u8] {
    if written > room.len() as u64 {
        return room;
    }
    &room[..written as usize]
}

// A line on standard error: what failed, and why.
pub fn tell_why(what: &[u8], error: std::io::Error) {
    let mut text = Cursor::new([0u8; 256]);
    let _ = write!(text, "{error}");
    let written = text.position();
    let room = text.into_inner();
    io::write_all(super::STDERR_FILENO, what);
    io::write_all(super::STDERR_FILENO, b": ");
    io::write_all(
        super::STDERR_FILENO,
        without_number(front_of(&room, written)),
    );
    io::write_all(super::STDERR_FILENO, b"\n");
}
