// The larger rows: the header's, and a class's.
ghost use Rattle.std.specs.Prelude.{◌≡◌, ◌∷◌};
ghost use Rattle.header.specs.Answers.{header_outcome};
ghost use Rattle.class_ids.specs.Answers.{class_outcome};
ghost use Rattle.string_ids.specs.Answers.{lookup_outcome};
ghost use Rattle.answer_rows.specs.Words.{row, told, told_if, order_word, maybe_word, ordered_words, header_words, signature_words, joined_words, class_words, number_words};

use super::words;
use class_ids::Class;
use header::Header;
use refusal::Refusal;
use word::Endian;

fn order_word(order: Endian) -> u64
    ensures { result ≡ order_word order }
{
    match order {
        Endian::Little => 0,
        Endian::Big => 1,
    }
}

fn maybe_word(m: Option<u32>) -> u64
    ensures { result ≡ maybe_word m }
{
    match m {
        Some(n) => n as u64,
        None => 18446744073709551615,
    }
}

fn ordered_row(header: Header, order: u64) -> [u64; 20]
    ensures { result ≡ row (0 ∷ ordered_words header order) }
{
    let strings = header.strings;
    let types = header.types;
    let protos = header.protos;
    let fields = header.fields;
    let methods = header.methods;
    let classes = header.classes;
    [
        0,
        header.version as u64,
        order,
        header.checksum as u64,
        header.map as u64,
        strings.count as u64,
        strings.offset as u64,
        types.count as u64,
        types.offset as u64,
        protos.count as u64,
        protos.offset as u64,
        fields.count as u64,
        fields.offset as u64,
        methods.count as u64,
        methods.offset as u64,
        classes.count as u64,
        classes.offset as u64,
        header.start as u64,
        header.end as u64,
        0,
    ]
}

fn whole_header(header: Header) -> [u64; 20]
    ensures { result ≡ row (0 ∷ header_words header) }
{
    let order = header.order;
    ordered_row(header, order_word(order))
}

pub fn header_row(a: Result<Header, Refusal>) -> [u64; 20]
    ensures { result ≡ told header_words (header_outcome a) }
{
    match a {
        Err(r) => words::refused(r),
        Ok(header) => whole_header(header),
    }
}

// Where the signature is.
pub fn signature_row(a: Result<Header, Refusal>) -> [u64; 20]
    ensures { result ≡ told signature_words (header_outcome a) }
{
    match a {
        Err(r) => words::refused(r),
        Ok(_) => words::four(12, 20, 0, 0),
    }
}

fn joined_row(c: Class, superclass: u64, source: u64) -> [u64; 20]
    ensures { result ≡ row (0 ∷ joined_words c superclass source) }
{
    [
        0,
        c.class as u64,
        c.flags as u64,
        superclass,
        c.interfaces as u64,
        source,
        c.directory as u64,
        c.data as u64,
        c.values as u64,
        0,
        0,
        0,
        0,
        0,
        0,
        0,
        0,
        0,
        0,
        0,
    ]
}

fn whole_class(c: Class) -> [u64; 20]
    ensures { result ≡ row (0 ∷ class_words c) }
{
    let superclass = c.superclass;
    let source = c.source;
    joined_row(c, maybe_word(superclass), maybe_word(source))
}

pub fn class_row(a: Result<Class, Refusal>) -> [u64; 20]
    ensures { result ≡ told class_words (class_outcome a) }
{
    match a {
        Err(r) => words::refused(r),
        Ok(c) => whole_class(c),
    }
}

// A number, or none: of a string that was sought, of a try that covers an address.
pub fn number_if_row(a: Result<Option<u32>, Refusal>) -> [u64; 20]
    ensures { result ≡ told_if number_words (lookup_outcome a) }
{
    match a {
        Err(r) => words::refused(r),
        Ok(o) => match o {
            None => words::absent(),
            Some(n) => words::one(n),
        },
    }
}
