// Files by their names. std opens a name that is UTF-8 text; ./dexcheck and ./dexregister make a link to the file of any other, named by the number of its argument,
// and say in an environment variable in which folder.
use super::reasons;
use std::env::Env;
use std::fs::{File, Files};
use std::io::{Cursor, ErrorKind, Write};

// The folder of the links.
const LINKS: &str = "DRALOVIKA_LINKS";

fn no_link() -> std::io::Error {
    std::io::Error::new(ErrorKind::InvalidInput, "its name is not UTF-8 text")
}

// The link to the file of argument i, in a folder.
fn open_in<R: Files>(rt: &R, folder: &str, i: usize) -> std::io::Result<R::File> {
    let mut path = Cursor::new([0u8; 4096]);
    write!(path, "{folder}/{i}")?;
    let written = path.position();
    let room = path.into_inner();
    match std::str::from_utf8(reasons::front_of(&room, written)) {
        Err(_) => Err(no_link()),
        Ok(link) => File::open(rt, link),
    }
}

// The link to the file of argument i.
fn open_link<R: Files + Env>(rt: &R, i: usize) -> std::io::Result<R::File> {
    let mut room = io::buffer();
    match rt.var(LINKS, &mut room) {
        Err(_) => Err(no_link()),
        Ok(n) => match std::str::from_utf8(&room[..n]) {
            Err(_) => Err(no_link()),
            Ok(folder) => open_in(rt, folder, i),
        },
    }
}

// The file of a name, which is argument i.
pub(crate) fn open_argument<R: Files + Env>(
    rt: &R,
    i: usize,
    name: &[u8],
) -> std::io::Result<R::File> {
    match std::str::from_utf8(name) {
        Err(_) => open_link(rt, i),
        Ok(path) => File::open(rt, path),
    }
}
