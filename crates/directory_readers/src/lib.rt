// The readers of the annotation directory of a class, each over a lent file: header (1 to 6), 7 for the class, its record, the directory whole, 7 for the
// entry. A directory holds no values, so the map is not read. One piece serves the three lists: fields 0, methods 1, parameters 2.
#![tactic(auto)]

ghost use Rattle.std.specs.Prelude.{◌≡◌};
ghost use Rattle.annotation_directories.specs.Answers.{directory_entry_outcome};
ghost use Rattle.directory_readers.specs.Directories.{directory_in, directory_of, head_in, directory, entry_in, entry_number};
ghost use Rattle.directory_readers.specs.Answers.{reached_outcome, directory_outcome};

use annotation_directories::{DirectoryEntry, DirectoryHead};
use header::Header;
use refusal::Refusal;

// A place in a file whose header was read, 0 where nothing is there.
#[derive(Clone, Copy)]
pub struct Reached {
    pub header: Header,
    pub place: u32,
}

fn directory_in(f: &[u8], header: Header, c: u32) -> Result<Reached, Refusal>
    ensures { reached_outcome result ≡ directory_in f.now c header }
{
    let found = table_readers::class_in(f, header, c)?;
    Ok(Reached {
        header,
        place: found.directory,
    })
}

// Where the directory of class c is, 0 where it has none.
pub fn directory_of(f: &[u8], c: u32) -> Result<Reached, Refusal>
    ensures { reached_outcome result ≡ directory_of f.now c }
{
    let header = header::header_of(f)?;
    directory_in(f, header, c)
}

// The directory at a place, none at 0.
pub fn head_in(f: &[u8], header: Header, at: u32) -> Result<Option<DirectoryHead>, Refusal>
    ensures { directory_outcome result ≡ head_in f.now header at }
{
    if 0 < at {
        let head = annotation_directories::directory(
            header::up_to_end(f, header),
            header::plain_frame(header),
            at as usize,
        )?;
        return Ok(Some(head));
    }
    Ok(None)
}

// The directory of class c.
pub fn directory(f: &[u8], c: u32) -> Result<Option<DirectoryHead>, Refusal>
    ensures { directory_outcome result ≡ directory f.now c }
{
    let d = directory_of(f, c)?;
    head_in(f, d.header, d.place)
}

// Entry k of a list of the directory at a place: at 0 there are none.
pub fn entry_in(
    f: &[u8],
    header: Header,
    at: u32,
    list: u32,
    k: u32,
) -> Result<DirectoryEntry, Refusal>
    ensures { directory_entry_outcome result ≡ entry_in f.now header at list k }
{
    if 0 < at {
        return annotation_directories::directory_entry(
            header::up_to_end(f, header),
            header::plain_frame(header),
            at as usize,
            list,
            k,
        );
    }
    Err(refusal::not_there())
}

fn entry_of(f: &[u8], c: u32, list: u32, k: u32) -> Result<DirectoryEntry, Refusal>
    ensures { directory_entry_outcome result ≡ entry_number f.now c list k }
{
    let d = directory_of(f, c)?;
    entry_in(f, d.header, d.place, list, k)
}

// Three names for one function, since C has three.

// Field entry k of class c: the field, and where its set is.
pub fn field_entry(f: &[u8], c: u32, k: u32) -> Result<DirectoryEntry, Refusal>
    ensures { directory_entry_outcome result ≡ entry_number f.now c 0 k }
{
    entry_of(f, c, 0, k)
}

// Method entry k of class c: the method, and where its set is.
pub fn method_entry(f: &[u8], c: u32, k: u32) -> Result<DirectoryEntry, Refusal>
    ensures { directory_entry_outcome result ≡ entry_number f.now c 1 k }
{
    entry_of(f, c, 1, k)
}

// Parameter entry k of class c: the method, and where its reference list is.
pub fn parameter_entry(f: &[u8], c: u32, k: u32) -> Result<DirectoryEntry, Refusal>
    ensures { directory_entry_outcome result ≡ entry_number f.now c 2 k }
{
    entry_of(f, c, 2, k)
}
