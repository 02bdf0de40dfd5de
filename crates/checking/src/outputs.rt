// Standard output: what is written to it, and whether it has arrived.
ghost use Rattle.std.specs.Prelude.{◌≤◌};

use super::{UNWRITTEN, reasons};
use std::env::{Env, FillError};
use std::fs;
use std::fs::{File, Files, OpenFile};
use std::io::ErrorKind;

// Standard output, as a file.
const OUTPUT: &str = "/dev/fd/1";

// The environment variable that ./dexcheck and ./dexregister set where a pipe that nobody reads ends a program, and nothing is said of it: where SIGPIPE is not
// ignored. No program of this language sees that for itself, since its runtime ignores SIGPIPE.
const SILENT_PIPE: &str = "DRALOVIKA_SILENT_PIPE";

// Is this error one of which nothing is said?
fn is_silent(rt: &impl Env, error: std::io::Error) -> bool {
    if error.kind() != ErrorKind::BrokenPipe {
        return false;
    }
    let mut word = [0u8; 1];
    match rt.var(SILENT_PIPE, &mut word) {
        Err(FillError::NotPresent) => false,
        Err(FillError::TooLong) => true,
        Ok(_) => true,
    }
}

// Writes all of it, or says why it could not.
pub fn write_output(rt: &(impl Env + Print), bytes: &[u8]) -> bool {
    match rt.write_all(bytes) {
        Ok(()) => true,
        Err(error) => {
            if !is_silent(rt, error) {
                reasons::tell_why(b"standard output", error);
            }
            false
        }
    }
}

// Is standard output a file of a disk? A pipe or a terminal has nothing that could be late, and is not opened once more.
fn is_file(rt: &impl Files) -> bool {
    match fs::metadata(rt, OUTPUT) {
        Err(_) => false,
        Ok(found) => found.is_file(),
    }
}

// What becomes of what was written late: an error, where there is one. Where the file cannot be opened, or has no such call, nothing is known.
fn late_error(rt: &impl Files) -> Option<std::io::Error> {
    match File::options().write(true).open(rt, OUTPUT) {
        Err(_) => None,
        Ok(file) => match file.sync_data() {
            Ok(()) => None,
            Err(error) => {
                if error.kind() == ErrorKind::InvalidInput {
                    return None;
                }
                Some(error)
            }
        },
    }
}

// Has all that was written arrived? Some file systems say so at the end alone.
pub fn close_output(rt: &impl Files, status: u8) -> u8
    ensures { status ≤ result }
{
    if status == UNWRITTEN {
        return status;
    }
    if !is_file(rt) {
        return status;
    }
    match late_error(rt) {
        None => status,
        Some(error) => {
            reasons::tell_why(b"standard output", error);
            super::worse(status, UNWRITTEN)
        }
    }
}
