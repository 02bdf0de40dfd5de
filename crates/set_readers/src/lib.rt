// The readers of annotations by number, each over a lent file: how many a set has, and where each is; the directory first, whole, then each item on the way,
// each followed by 7 for its inner number. One piece serves the sets of class, field, method and parameter; a set that is absent is empty.
#![tactic(auto)]

ghost use Rattle.std.specs.Prelude.{◌≡◌};
ghost use Rattle.annotation_lists.specs.Answers.{word_outcome};
ghost use Rattle.set_readers.specs.Sets.{class_set_in, class_set, entry_set_in, entry_set, parameter_set_in, parameter_set};
ghost use Rattle.set_readers.specs.Sets.{references_in, parameter_set_count, set_count, set_number, annotation_count, annotation_place};
ghost use Rattle.directory_readers.specs.Answers.{reached_outcome};

use annotation_directories::DirectoryEntry;
use directory_readers::Reached;
use header::Header;
use refusal::Refusal;

// Where the class's set is, by the directory at a place.
fn class_set_in(f: &[u8], header: Header, at: u32) -> Result<Reached, Refusal>
    ensures { reached_outcome result ≡ class_set_in f.now header at }
{
    match directory_readers::head_in(f, header, at)? {
        None => Ok(Reached { header, place: 0 }),
        Some(head) => Ok(Reached {
            header,
            place: head.set,
        }),
    }
}

fn class_set(f: &[u8], c: u32) -> Result<Reached, Refusal>
    ensures { reached_outcome result ≡ class_set f.now c }
{
    let d = directory_readers::directory_of(f, c)?;
    class_set_in(f, d.header, d.place)
}

// Where entry e of a list leads to, by the directory at a place.
fn entry_set_in(f: &[u8], header: Header, at: u32, list: u32, e: u32) -> Result<Reached, Refusal>
    ensures { reached_outcome result ≡ entry_set_in f.now header at list e }
{
    let DirectoryEntry { offset, .. } = directory_readers::entry_in(f, header, at, list, e)?;
    Ok(Reached {
        header,
        place: offset,
    })
}

fn entry_set(f: &[u8], c: u32, list: u32, e: u32) -> Result<Reached, Refusal>
    ensures { reached_outcome result ≡ entry_set f.now c list e }
{
    let d = directory_readers::directory_of(f, c)?;
    entry_set_in(f, d.header, d.place, list, e)
}

// Where set p of the reference list at a place is, 0 where it is absent.
fn parameter_set_in(f: &[u8], header: Header, at: u32, p: u32) -> Result<Reached, Refusal>
    ensures { reached_outcome result ≡ parameter_set_in f.now header at p }
{
    let place = annotation_lists::reference_offset(
        header::up_to_end(f, header),
        header::plain_frame(header),
        at as usize,
        p,
    )?;
    Ok(Reached { header, place })
}

fn parameter_set(f: &[u8], c: u32, e: u32, p: u32) -> Result<Reached, Refusal>
    ensures { reached_outcome result ≡ parameter_set f.now c e p }
{
    let l = entry_set(f, c, 2, e)?;
    parameter_set_in(f, l.header, l.place, p)
}

fn references_in(f: &[u8], header: Header, at: u32) -> Result<u32, Refusal>
    ensures { word_outcome result ≡ references_in f.now header at }
{
    annotation_lists::reference_count(
        header::up_to_end(f, header),
        header::plain_frame(header),
        at as usize,
    )
}

// How many parameters, absent sets too, parameter entry e of class c has.
pub fn parameter_set_count(f: &[u8], c: u32, e: u32) -> Result<u32, Refusal>
    ensures { word_outcome result ≡ parameter_set_count f.now c e }
{
    let l = entry_set(f, c, 2, e)?;
    references_in(f, l.header, l.place)
}

// How many annotations the set at a place has, 0 where it is absent.
fn set_count(f: &[u8], header: Header, at: u32) -> Result<u32, Refusal>
    ensures { word_outcome result ≡ set_count f.now header at }
{
    if 0 < at {
        return annotation_lists::set_count(
            header::up_to_end(f, header),
            header::plain_frame(header),
            at as usize,
        );
    }
    Ok(0)
}

fn set_number(f: &[u8], header: Header, at: u32, k: u32) -> Result<u32, Refusal>
    ensures { word_outcome result ≡ set_number f.now header at k }
{
    if 0 < at {
        return annotation_lists::set_offset(
            header::up_to_end(f, header),
            header::plain_frame(header),
            at as usize,
            k,
        );
    }
    Err(refusal::not_there())
}

// How many annotations the set has that was reached.
fn count_of(f: &[u8], set: Result<Reached, Refusal>) -> Result<u32, Refusal>
    ensures { word_outcome result ≡ annotation_count f.now (reached_outcome set) }
{
    let reached = set?;
    set_count(f, reached.header, reached.place)
}

// Where annotation k of the set is that was reached.
fn place_of(f: &[u8], set: Result<Reached, Refusal>, k: u32) -> Result<u32, Refusal>
    ensures { word_outcome result ≡ annotation_place f.now (reached_outcome set) k }
{
    let reached = set?;
    set_number(f, reached.header, reached.place, k)
}

// Eight names for two functions, since C has eight.

// How many annotations class c has.
pub fn class_annotation_count(f: &[u8], c: u32) -> Result<u32, Refusal>
    ensures { word_outcome result ≡ annotation_count f.now (class_set f.now c) }
{
    count_of(f, class_set(f, c))
}

// Where annotation k of class c is.
pub fn class_annotation_place(f: &[u8], c: u32, k: u32) -> Result<u32, Refusal>
    ensures { word_outcome result ≡ annotation_place f.now (class_set f.now c) k }
{
    place_of(f, class_set(f, c), k)
}

// How many annotations field entry e of class c has.
pub fn field_annotation_count(f: &[u8], c: u32, e: u32) -> Result<u32, Refusal>
    ensures { word_outcome result ≡ annotation_count f.now (entry_set f.now c 0 e) }
{
    count_of(f, entry_set(f, c, 0, e))
}

// Where annotation k of field entry e of class c is.
pub fn field_annotation_place(f: &[u8], c: u32, e: u32, k: u32) -> Result<u32, Refusal>
    ensures { word_outcome result ≡ annotation_place f.now (entry_set f.now c 0 e) k }
{
    place_of(f, entry_set(f, c, 0, e), k)
}

// How many annotations method entry e of class c has.
pub fn method_annotation_count(f: &[u8], c: u32, e: u32) -> Result<u32, Refusal>
    ensures { word_outcome result ≡ annotation_count f.now (entry_set f.now c 1 e) }
{
    count_of(f, entry_set(f, c, 1, e))
}

// Where annotation k of method entry e of class c is.
pub fn method_annotation_place(f: &[u8], c: u32, e: u32, k: u32) -> Result<u32, Refusal>
    ensures { word_outcome result ≡ annotation_place f.now (entry_set f.now c 1 e) k }
{
    place_of(f, entry_set(f, c, 1, e), k)
}

// How many annotations parameter p of parameter entry e of class c has.
pub fn parameter_annotation_count(f: &[u8], c: u32, e: u32, p: u32) -> Result<u32, Refusal>
    ensures { word_outcome result ≡ annotation_count f.now (parameter_set f.now c e p) }
{
    count_of(f, parameter_set(f, c, e, p))
}

// Where annotation k of parameter p of parameter entry e of class c is.
pub fn parameter_annotation_place(f: &[u8], c: u32, e: u32, p: u32, k: u32) -> Result<u32, Refusal>
    ensures { word_outcome result ≡ annotation_place f.now (parameter_set f.now c e p) k }
{
    place_of(f, parameter_set(f, c, e, p), k)
}
