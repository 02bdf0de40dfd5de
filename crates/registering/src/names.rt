// Texts by number: strings, types, and the parts of fields and methods.
use super::lines::{Output, Stopped};
use header::Header;
use ids::MemberId;
use refusal::Refusal;
use std::env::Env;
use text::TextPlace;

// The bytes of string n.
pub fn string_bytes<'a>(f: &'a [u8], header: Header, n: u32) -> Result<&'a [u8], Refusal> {
    let TextPlace {
        start,
        length,
        units: _,
    } = string_ids::string_at(f, header, n)?;
    Ok(word::bytes_at(f, start, length))
}

// String n.
pub fn put_string(
    rt: &(impl Env + Print),
    f: &[u8],
    header: Header,
    n: u32,
    key: bool,
    out: &mut Output,
) -> Result<(), Stopped> {
    out.put_text(rt, string_bytes(f, header, n)?, key)
}

// The string of type n.
pub fn type_string(f: &[u8], header: Header, n: u32) -> Result<u32, Refusal> {
    let types = header.types;
    ids::type_at(f, header::plain_frame(header), types.offset, n)
}

// The text of type n.
pub fn put_type(
    rt: &(impl Env + Print),
    f: &[u8],
    header: Header,
    n: u32,
    out: &mut Output,
) -> Result<(), Stopped> {
    put_string(rt, f, header, type_string(f, header, n)?, false, out)
}

// A tab, and the text of string n.
pub fn put_string_column(
    rt: &(impl Env + Print),
    f: &[u8],
    header: Header,
    n: u32,
    out: &mut Output,
) -> Result<(), Stopped> {
    out.put(rt, b"\t")?;
    put_string(rt, f, header, n, false, out)
}

// A tab, and the text of type n.
pub fn put_type_column(
    rt: &(impl Env + Print),
    f: &[u8],
    header: Header,
    n: u32,
    out: &mut Output,
) -> Result<(), Stopped> {
    out.put(rt, b"\t")?;
    put_type(rt, f, header, n, out)
}

// A tab, and a number.
pub fn put_number_column(rt: &(impl Env + Print), n: u64, out: &mut Output) -> Result<(), Stopped> {
    out.put(rt, b"\t")?;
    out.put_number(rt, n)
}

// The record of field n.
pub fn field_of(f: &[u8], header: Header, n: u32) -> Result<MemberId, Refusal> {
    let types = header.types;
    let fields = header.fields;
    ids::member_at(
        f,
        header::plain_frame(header),
        types.count,
        fields.offset,
        n,
    )
}

// Class and name of a member.
fn put_member(
    rt: &(impl Env + Print),
    f: &[u8],
    header: Header,
    m: MemberId,
    out: &mut Output,
) -> Result<(), Stopped> {
    put_type_column(rt, f, header, m.class, out)?;
    put_string_column(rt, f, header, m.name, out)
}

// Class, name and type of field n.
pub fn put_field(
    rt: &(impl Env + Print),
    f: &[u8],
    header: Header,
    n: u32,
    out: &mut Output,
) -> Result<(), Stopped> {
    let m = field_of(f, header, n)?;
    put_member(rt, f, header, m, out)?;
    put_type_column(rt, f, header, m.kind, out)
}

// Class, name and proto number of method n.
pub fn put_method(
    rt: &(impl Env + Print),
    f: &[u8],
    header: Header,
    n: u32,
    out: &mut Output,
) -> Result<(), Stopped> {
    let protos = header.protos;
    let methods = header.methods;
    let m = ids::member_at(
        f,
        header::plain_frame(header),
        protos.count,
        methods.offset,
        n,
    )?;
    put_member(rt, f, header, m, out)?;
    put_number_column(rt, m.kind as u64, out)
}
