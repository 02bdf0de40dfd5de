// The header of a DEX file: rules 1 to 6, in that order, at place 0.
#![tactic(auto)]

ghost use Rattle.std.specs.Prelude.{◌≡◌, get_or};
ghost use Rattle.header.specs.Header.{four, version_at, order_at, table_allowed, table_at, three_at, section_at, joined, sectioned_at, tables_at, body_at, versioned_at, header_at, up_to_end, frame_of, plain_frame};
ghost use Rattle.header.specs.Answers.{order_outcome, table_outcome, three_outcome, section_outcome, header_outcome};

use frame::Frame;
use refusal::Refusal;
use word::Endian;

// A table: how many records, and where the first one is.
#[derive(Clone, Copy)]
pub struct Table {
    pub count: u32,
    pub offset: u32,
}

#[derive(Clone, Copy)]
pub struct Header {
    pub version: u32,
    pub order: Endian,
    pub checksum: u32,
    pub map: usize,
    pub strings: Table,
    pub types: Table,
    pub protos: Table,
    pub fields: Table,
    pub methods: Table,
    pub classes: Table,
    pub start: usize,
    pub end: usize,
}

// What a table's records are: how many bytes each, and how many there may be.
#[derive(Clone, Copy)]
pub struct Shape {
    pub width: u32,
    pub most: u32,
}

// Three tables whose places stand in a row.
#[derive(Clone, Copy)]
pub struct Three {
    pub first: Table,
    pub second: Table,
    pub third: Table,
}

// The data section: from where, and up to where.
#[derive(Clone, Copy)]
pub struct Section {
    pub start: usize,
    pub end: usize,
}

// Types and protos are named by 16 bits.
const MOST_TYPES: u32 = 65535;

// Document 01's records of 4, 4, 12, 8, 8 and 32 bytes. A count is 32 bits wide: for four of the tables that is no limit.
const STRINGS: Shape = Shape {
    width: 4,
    most: 4294967295,
};

const TYPES: Shape = Shape {
    width: 4,
    most: MOST_TYPES,
};

const PROTOS: Shape = Shape {
    width: 12,
    most: MOST_TYPES,
};

const FIELDS: Shape = Shape {
    width: 8,
    most: 4294967295,
};

const METHODS: Shape = Shape {
    width: 8,
    most: 4294967295,
};

const CLASSES: Shape = Shape {
    width: 32,
    most: 4294967295,
};

// Are these the four bytes at a place.
fn is_four(f: &[u8], at: u32, bytes: [u8; 4]) -> bool
    ensures { result ≡ four f.now at (get_or bytes 0 0) (get_or bytes 1 0) (get_or bytes 2 0) (get_or bytes 3 0) }
{
    let p = at as usize;
    word::byte_at(f, p) == bytes[0]
        && word::byte_at(f, p + 1) == bytes[1]
        && word::byte_at(f, p + 2) == bytes[2]
        && word::byte_at(f, p + 3) == bytes[3]
}

// The version that the magic names, 0 where it names none that is known.
fn version_at(f: &[u8]) -> u32
    ensures { result ≡ version_at f.now }
{
    if is_four(f, 4, [b'0', b'3', b'5', 0]) {
        return 35;
    }
    if is_four(f, 4, [b'0', b'3', b'7', 0]) {
        return 37;
    }
    if is_four(f, 4, [b'0', b'3', b'8', 0]) {
        return 38;
    }
    if is_four(f, 4, [b'0', b'3', b'9', 0]) {
        return 39;
    }
    0
}

// The byte order that the endian tag tells.
fn order_at(f: &[u8]) -> Result<Endian, Refusal>
    ensures { order_outcome result ≡ order_at f.now }
{
    if is_four(f, 40, [0x78, 0x56, 0x34, 0x12]) {
        return Ok(Endian::Little);
    }
    if is_four(f, 40, [0x12, 0x34, 0x56, 0x78]) {
        return Ok(Endian::Big);
    }
    Err(refusal::wrong_tag())
}

// May a table of a file of `length` bytes have so many records there.
fn is_table_allowed(length: usize, shape: Shape, count: u32, offset: u32) -> bool
    ensures { result ≡ table_allowed length shape count offset }
{
    if count == 0 {
        return offset == 0;
    }
    if offset < 112 {
        return false;
    }
    if offset % 4 != 0 {
        return false;
    }
    if length < offset as usize + shape.width as usize * count as usize {
        return false;
    }
    count <= shape.most
}

// The table whose count and offset stand at a place of the header.
fn table_at(f: &[u8], order: Endian, shape: Shape, at: u32) -> Result<Table, Refusal>
    ensures { table_outcome result ≡ table_at f.now order shape at }
{
    let p = at as usize;
    let count = word::u32_at(f, p, order);
    let offset = word::u32_at(f, p + 4, order);
    if is_table_allowed(f.len(), shape, count, offset) {
        return Ok(Table { count, offset });
    }
    Err(refusal::out_of_bounds())
}

// Three tables whose counts and offsets stand in a row.
fn three_at(
    f: &[u8],
    order: Endian,
    a: Shape,
    b: Shape,
    c: Shape,
    at: u16,
) -> Result<Three, Refusal>
    ensures { three_outcome result ≡ three_at f.now order a b c at }
{
    let first = table_at(f, order, a, at as u32)?;
    let second = table_at(f, order, b, at as u32 + 8)?;
    let third = table_at(f, order, c, at as u32 + 16)?;
    Ok(Three {
        first,
        second,
        third,
    })
}

// The data section.
fn section_at(f: &[u8], order: Endian) -> Result<Section, Refusal>
    ensures { section_outcome result ≡ section_at f.now order }
{
    let size = word::u32_at(f, 104, order) as usize;
    let start = word::u32_at(f, 108, order) as usize;
    if start < 112 {
        return Err(refusal::out_of_bounds());
    }
    if f.len() < start + size {
        return Err(refusal::out_of_bounds());
    }
    Ok(Section {
        start,
        end: start + size,
    })
}

// What the header says, put together.
fn join(f: &[u8], version: u32, order: Endian, t: Three, u: Three, d: Section) -> Header
    ensures { result ≡ joined f.now version order t u d }
{
    Header {
        version,
        order,
        checksum: word::u32_at(f, 8, order),
        map: word::u32_at(f, 52, order) as usize,
        strings: t.first,
        types: t.second,
        protos: t.third,
        fields: u.first,
        methods: u.second,
        classes: u.third,
        start: d.start,
        end: d.end,
    }
}

// Rules 5 and 6, and what the header says in this order.
fn body_at(f: &[u8], version: u32, order: Endian) -> Result<Header, Refusal>
    ensures { header_outcome result ≡ body_at f.now version order }
{
    let size = word::u32_at(f, 36, order);
    let file = word::u32_at(f, 32, order) as usize;
    if size != 112 {
        return Err(refusal::wrong_sizes());
    }
    if file != f.len() {
        return Err(refusal::wrong_sizes());
    }
    tables_at(f, version, order)
}

// The data section behind six tables.
fn sectioned(f: &[u8], version: u32, order: Endian, t: Three, u: Three) -> Result<Header, Refusal>
    ensures { header_outcome result ≡ sectioned_at f.now version order t u }
{
    let d = section_at(f, order)?;
    Ok(join(f, version, order, t, u, d))
}

// Rule 6: the six tables and the data section.
fn tables_at(f: &[u8], version: u32, order: Endian) -> Result<Header, Refusal>
    ensures { header_outcome result ≡ tables_at f.now version order }
{
    let t = three_at(f, order, STRINGS, TYPES, PROTOS, 56)?;
    let u = three_at(f, order, FIELDS, METHODS, CLASSES, 80)?;
    sectioned(f, version, order, t, u)
}

// The header, or the first of rules 1 to 6 that is broken.
pub fn header_of(f: &[u8]) -> Result<Header, Refusal>
    ensures { header_outcome result ≡ header_at f.now }
{
    if f.len() < 112 {
        return Err(refusal::file_too_short());
    }
    if 67108864 < f.len() {
        return Err(refusal::file_too_long());
    }
    if is_four(f, 0, [0x64, 0x65, 0x78, 0x0a]) {
        return versioned(f);
    }
    Err(refusal::wrong_magic())
}

// The header behind the magic: its version, and then its order.
fn versioned(f: &[u8]) -> Result<Header, Refusal>
    ensures { header_outcome result ≡ versioned_at f.now }
{
    let version = version_at(f);
    if 0 < version {
        let order = order_at(f)?;
        return body_at(f, version, order);
    }
    Err(refusal::wrong_magic())
}

// The file up to the data section's end: what data items are read from.
pub fn up_to_end(f: &[u8], header: Header) -> &[u8]
    ensures { result.now ≡ up_to_end f.now header }
{
    if f.len() < header.end {
        return f;
    }
    &f[..header.end]
}

// What items are read against in a file with this header and so many method handles.
pub fn frame_of(header: Header, handles: u32) -> Frame
    ensures { result ≡ frame_of header handles }
{
    Frame {
        order: header.order,
        start: header.start,
        strings: header.strings.count,
        types: header.types.count,
        protos: header.protos.count,
        fields: header.fields.count,
        methods: header.methods.count,
        handles,
    }
}

// The same without method handles, for what can name none: records, lists, class data, code and debug information. Only values hold an index of a
// handle.
pub fn plain_frame(header: Header) -> Frame
    ensures { result ≡ plain_frame header }
{
    frame_of(header, 0)
}
