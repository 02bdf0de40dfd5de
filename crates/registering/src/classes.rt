// Classes by number, and of each its annotations and its static fields.
use super::annotations::Entries;
use super::lines::{Output, Stopped};
use super::values::{Fact, Kind, Owner};
use super::{annotations, names, values};
use class_ids::Class;
use class_members::MemberJudge;
use header::Header;
use refusal::Read;
use std::env::Env;

// How many things there are, and where they begin.
#[derive(Clone, Copy)]
struct Counted {
    count: u32,
    next: usize,
}

// The stored values that are left, and where the next is; and the entry of the directory to go on with.
#[derive(Clone, Copy)]
struct Rest {
    stored: u32,
    value: usize,
    entry: u32,
}

// A count at a place, and where it ends.
fn count_at(s: &[u8], item: usize, at: usize) -> Counted {
    match leb128::uleb(s, at, item) {
        Err(_) => Counted { count: 0, next: at },
        Ok(Read { value: count, next }) => Counted { count, next },
    }
}

// How many static fields class data at an offset has, and where they begin: behind its four counts.
fn statics_at(s: &[u8], data: u32) -> Counted {
    if data == 0 {
        return Counted { count: 0, next: 0 };
    }
    let item = data as usize;
    let first = count_at(s, item, item);
    let second = count_at(s, item, first.next);
    let third = count_at(s, item, second.next);
    let fourth = count_at(s, item, third.next);
    Counted {
        count: first.count,
        next: fourth.next,
    }
}

// How many values the array at an offset has, and where they begin; none where it is absent.
fn values_at(s: &[u8], values: u32) -> Counted {
    if values == 0 {
        return Counted { count: 0, next: 0 };
    }
    count_at(s, values as usize, values as usize)
}

// A line of a field: class, name, a word, and a number.
fn put_flags(
    rt: &(impl Env + Print),
    f: &[u8],
    header: Header,
    owner: Owner,
    flags: u32,
    out: &mut Output,
) -> Result<(), Stopped> {
    values::put_owner(rt, f, header, owner, out)?;
    out.put(rt, b"flags")?;
    names::put_number_column(rt, flags as u64, out)?;
    out.put(rt, b"\n")
}

// The same, and a type.
fn put_kind(
    rt: &(impl Env + Print),
    f: &[u8],
    header: Header,
    owner: Owner,
    kind: u32,
    out: &mut Output,
) -> Result<(), Stopped> {
    values::put_owner(rt, f, header, owner, out)?;
    out.put(rt, b"type")?;
    names::put_type_column(rt, f, header, kind, out)?;
    out.put(rt, b"\n")
}

// The value of a field of a type, past the list.
fn put_default(
    rt: &(impl Env + Print),
    f: &[u8],
    header: Header,
    owner: Owner,
    kind: u32,
    out: &mut Output,
) -> Result<(), Stopped> {
    let string = names::type_string(f, header, kind)?;
    let value = static_kinds::default_of(names::string_bytes(f, header, string)?);
    let fact = Fact {
        owner,
        kind: Kind::Default,
    };
    values::put_fact(rt, f, header, fact, out)?;
    values::put_value(rt, f, header, value, out)
}

// The value of a field, the next that is stored or the one by default: where the next that is stored is.
fn write_start(
    rt: &(impl Env + Print),
    f: &[u8],
    header: Header,
    handles: u32,
    owner: Owner,
    kind: u32,
    array: u32,
    rest: Rest,
    out: &mut Output,
) -> Result<usize, Stopped> {
    if rest.stored == 0 {
        put_default(rt, f, header, owner, kind, out)?;
        return Ok(rest.value);
    }
    let w = value_heads::walk_of(header::frame_of(header, handles), array as usize);
    let fact = Fact {
        owner,
        kind: Kind::Stored,
    };
    values::write_value(rt, f, header, w, fact, rest.value, out)
}

// All lines of a field: flags, type, value, annotations.
fn write_field(
    rt: &(impl Env + Print),
    f: &[u8],
    header: Header,
    handles: u32,
    c: Class,
    index: u32,
    flags: u32,
    entries: Entries,
    rest: Rest,
    out: &mut Output,
) -> Result<Rest, Stopped> {
    let m = names::field_of(f, header, index)?;
    let owner = Owner {
        class: c.class,
        field: Some(m.name),
    };
    put_flags(rt, f, header, owner, flags, out)?;
    put_kind(rt, f, header, owner, m.kind, out)?;
    let value = write_start(rt, f, header, handles, owner, m.kind, c.values, rest, out)?;
    let entry = annotations::write_entries(
        rt, f, header, handles, owner, entries, rest.entry, index, out,
    )?;
    Ok(Rest {
        stored: rest.stored.saturating_sub(1),
        value,
        entry: kept_entry(entries.rising, entry),
    })
}

// The entry to go on with: the first where they are in no order.
fn kept_entry(rising: bool, entry: u32) -> u32 {
    if rising { entry } else { 0 }
}

// The static fields of a class, each behind the one before.
fn write_fields(
    rt: &(impl Env + Print),
    f: &[u8],
    header: Header,
    handles: u32,
    c: Class,
    entries: Entries,
    out: &mut Output,
) -> Result<(), Stopped> {
    let s = header::up_to_end(f, header);
    let fields = header.fields;
    let judge = MemberJudge {
        limit: fields.count,
        code: false,
        start: header.start,
    };
    let statics = statics_at(s, c.data);
    let list = values_at(s, c.values);
    let mut rest = Rest {
        stored: list.count,
        value: list.next,
        entry: 0,
    };
    let mut p = statics.next;
    let mut base: u32 = 0;
    for k in 0..statics.count {
        let Read {
            value: member,
            next,
        } = class_members::member_found(s, judge, c.data as usize, base, 0 < k, p)?;
        rest = write_field(
            rt,
            f,
            header,
            handles,
            c,
            member.index,
            member.flags,
            entries,
            rest,
            out,
        )?;
        base = member.index;
        p = next;
    }
    Ok(())
}

// The annotations of a class.
fn write_own(
    rt: &(impl Env + Print),
    f: &[u8],
    header: Header,
    handles: u32,
    class: u32,
    set: u32,
    out: &mut Output,
) -> Result<(), Stopped> {
    if 0 < set {
        let owner = Owner { class, field: None };
        annotations::write_set(rt, f, header, handles, owner, set, 0, out)?;
    }
    Ok(())
}

// Class n.
fn write_class(
    rt: &(impl Env + Print),
    f: &[u8],
    header: Header,
    handles: u32,
    n: u32,
    out: &mut Output,
) -> Result<(), Stopped> {
    let classes = header.classes;
    let frame = header::frame_of(header, handles);
    let c = class_ids::class_at(f, frame, header.end, classes.offset, n)?;
    let entries = annotations::entries_at(f, header, c.directory);
    write_own(rt, f, header, handles, c.class, entries.set, out)?;
    write_fields(rt, f, header, handles, c, entries, out)
}

// All classes.
pub fn write_classes(
    rt: &(impl Env + Print),
    f: &[u8],
    header: Header,
    out: &mut Output,
) -> Result<(), Stopped> {
    let m = map_list::map_of(f, header)?;
    let handles = m.handles;
    let classes = header.classes;
    for n in 0..classes.count {
        write_class(rt, f, header, handles.count, n, out)?;
    }
    Ok(())
}
