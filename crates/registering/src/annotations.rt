// Annotations of a class and of its fields. A directory has entries for fields, each with a set; a set has annotation items.
use super::lines::{Output, Stopped};
use super::values::{Fact, Kind, Owner};
use super::{names, values};
use header::Header;
use refusal::Read;
use std::env::Env;
use value_heads::Walk;

// The field entries of a directory: where it is, how many there are, and whether their fields are in rising order.
#[derive(Clone, Copy)]
pub struct Entries {
    pub directory: u32,
    pub count: u32,
    pub rising: bool,
    pub set: u32,
}

// The word at a place of the data section.
fn word_of(f: &[u8], header: Header, at: usize) -> u32 {
    let order = header.order;
    word::u32_at(header::up_to_end(f, header), at, order)
}

// The field of entry k of a directory.
fn entry_field(f: &[u8], header: Header, directory: u32, k: u32) -> u32 {
    word_of(f, header, directory as usize + 16 + 8 * k as usize)
}

// Is no entry's field below that of the one before? There is no rule of it, so it is looked at once for each class.
fn is_rising(f: &[u8], header: Header, directory: u32, count: u32) -> bool {
    let mut last: u32 = 0;
    for k in 0..count {
        let field = entry_field(f, header, directory, k);
        if field < last {
            return false;
        }
        last = field;
    }
    true
}

fn no_entries() -> Entries {
    Entries {
        directory: 0,
        count: 0,
        rising: true,
        set: 0,
    }
}

// The field entries of the directory at an offset, none where it is absent.
pub fn entries_at(f: &[u8], header: Header, directory: u32) -> Entries {
    if directory == 0 {
        return no_entries();
    }
    let s = header::up_to_end(f, header);
    match annotation_directories::directory(s, header::plain_frame(header), directory as usize) {
        Err(_) => no_entries(),
        Ok(h) => Entries {
            directory,
            count: h.fields,
            rising: is_rising(f, header, directory, h.fields),
            set: h.set,
        },
    }
}

// The line of an annotation, whose body is at a place, and its elements.
fn write_body(
    rt: &(impl Env + Print),
    f: &[u8],
    header: Header,
    w: Walk,
    fact: Fact,
    at: usize,
    out: &mut Output,
) -> Result<(), Stopped> {
    let s = header::up_to_end(f, header);
    let Read {
        value: type_index,
        next: middle,
    } = value_heads::index_at(s, w.item, w.types, at)?;
    let Read { value: count, next } = leb128::uleb(s, middle, w.item)?;
    names::put_type_column(rt, f, header, type_index, out)?;
    out.put(rt, b"\n")?;
    values::write_values(rt, f, header, w, fact, true, count, next, out)?;
    Ok(())
}

// The annotation item at an offset.
fn write_annotation(
    rt: &(impl Env + Print),
    f: &[u8],
    header: Header,
    handles: u32,
    fact: Fact,
    item: u32,
    out: &mut Output,
) -> Result<(), Stopped> {
    let at = item as usize;
    let body = item as usize + 1;
    let visibility = word::byte_at(f, at);
    values::put_fact(rt, f, header, fact, out)?;
    out.put(rt, b"\tannotation")?;
    names::put_number_column(rt, visibility as u64, out)?;
    let w = value_heads::walk_of(header::frame_of(header, handles), at);
    write_body(rt, f, header, w, fact, body, out)
}

// The annotations of the set at an offset, numbered from a number on: the number to go on with.
pub fn write_set(
    rt: &(impl Env + Print),
    f: &[u8],
    header: Header,
    handles: u32,
    owner: Owner,
    set: u32,
    from: u32,
    out: &mut Output,
) -> Result<u32, Stopped> {
    let count = word_of(f, header, set as usize);
    let mut number = from;
    for i in 0..count {
        let item = word_of(f, header, set as usize + 4 + 4 * i as usize);
        let fact = Fact {
            owner,
            kind: Kind::Annotation(number),
        };
        write_annotation(rt, f, header, handles, fact, item, out)?;
        number = std::num::wrapping_add_u32(number, 1);
    }
    Ok(number)
}

// The annotations of entry k, where it is the field's, numbered from a number on: the number to go on with.
fn write_entry(
    rt: &(impl Env + Print),
    f: &[u8],
    header: Header,
    handles: u32,
    owner: Owner,
    directory: u32,
    k: u32,
    index: u32,
    number: u32,
    out: &mut Output,
) -> Result<u32, Stopped> {
    if entry_field(f, header, directory, k) == index {
        let set = word_of(f, header, directory as usize + 20 + 8 * k as usize);
        return write_set(rt, f, header, handles, owner, set, number, out);
    }
    Ok(number)
}

// Can no entry from this one on be the field's?
fn is_past(rising: bool, index: u32, field: u32) -> bool {
    rising && index < field
}

// The annotations of a field: of all its entries, in their order. Where the entries are in order, those of the fields before are not looked at again: the entry
// to go on with at the next field.
pub fn write_entries(
    rt: &(impl Env + Print),
    f: &[u8],
    header: Header,
    handles: u32,
    owner: Owner,
    entries: Entries,
    from: u32,
    index: u32,
    out: &mut Output,
) -> Result<u32, Stopped> {
    let directory = entries.directory;
    let mut number: u32 = 0;
    for k in from..entries.count {
        if is_past(entries.rising, index, entry_field(f, header, directory, k)) {
            return Ok(k);
        }
        number = write_entry(
            rt, f, header, handles, owner, directory, k, index, number, out,
        )?;
    }
    Ok(from.max(entries.count))
}
