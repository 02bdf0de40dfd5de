// One row for each kind of answer: word 0 says which it is, and what follows is in include/dralovika.h.
ghost use Rattle.std.specs.Prelude.{◌≡◌};
ghost use Rattle.refusal.specs.Answers.{as_given};
ghost use Rattle.table_readers.specs.Answers.{entry_outcome};
ghost use Rattle.ids.specs.Answers.{handle_outcome};
ghost use Rattle.text.specs.Answers.{text_outcome};
ghost use Rattle.ids.specs.Answers.{proto_outcome};
ghost use Rattle.ids.specs.Answers.{member_id_outcome};
ghost use Rattle.access_flags.specs.Answers.{flags_outcome};
ghost use Rattle.value_readers.specs.Answers.{array_outcome};
ghost use Rattle.value_readers.specs.Answers.{body_outcome};
ghost use Rattle.value_bodies.specs.Answers.{picked_outcome};
ghost use Rattle.value_bodies.specs.Answers.{element_outcome};
ghost use Rattle.static_fields.specs.Answers.{maybe_field, maybe_wrong};
ghost use Rattle.answer_rows.specs.Words.{array_words, body_words, element_words, entry_words, handle_words, member_words, number_words, proto_words, static_words, text_words, told, told_if, value_words, wrong_words};

use super::words;
use decoded_value::Value;
use ids::{Handle, MemberId, Proto};
use map_list::MapEntry;
use refusal::Refusal;
use static_fields::{StaticField, WrongKind};
use text::TextPlace;
use value_bodies::Element;
use value_readers::{ArrayOutline, BodyOutline};

// A number: how many there are, an index, a place.
pub fn number_row(a: Result<u32, Refusal>) -> [u64; 20]
    ensures { result ≡ told number_words (as_given a) }
{
    match a {
        Err(r) => words::refused(r),
        Ok(n) => words::one(n),
    }
}

pub fn entry_row(a: Result<MapEntry, Refusal>) -> [u64; 20]
    ensures { result ≡ told entry_words (entry_outcome a) }
{
    match a {
        Err(r) => words::refused(r),
        Ok(e) => words::four(e.kind as u64, e.size as u64, e.offset as u64, 0),
    }
}

pub fn handle_row(a: Result<Handle, Refusal>) -> [u64; 20]
    ensures { result ≡ told handle_words (handle_outcome a) }
{
    match a {
        Err(r) => words::refused(r),
        Ok(h) => words::four(h.kind as u64, h.number as u64, 0, 0),
    }
}

pub fn text_row(a: Result<TextPlace, Refusal>) -> [u64; 20]
    ensures { result ≡ told text_words (text_outcome a) }
{
    match a {
        Err(r) => words::refused(r),
        Ok(
            TextPlace {
                start,
                length,
                units,
            },
        ) => words::four(start as u64, length as u64, units as u64, 0),
    }
}

pub fn proto_row(a: Result<Proto, Refusal>) -> [u64; 20]
    ensures { result ≡ told proto_words (proto_outcome a) }
{
    match a {
        Err(r) => words::refused(r),
        Ok(p) => words::four(
            p.shorty as u64,
            p.return_type as u64,
            p.parameters as u64,
            0,
        ),
    }
}

pub fn member_row(a: Result<MemberId, Refusal>) -> [u64; 20]
    ensures { result ≡ told member_words (member_id_outcome a) }
{
    match a {
        Err(r) => words::refused(r),
        Ok(m) => words::four(m.class as u64, m.kind as u64, m.name as u64, 0),
    }
}

pub fn flags_row(a: Result<usize, Refusal>) -> [u64; 20]
    ensures { result ≡ told number_words (flags_outcome a) }
{
    match a {
        Err(r) => words::refused(r),
        Ok(n) => words::four(n as u64, 0, 0, 0),
    }
}

pub fn array_row(a: Result<ArrayOutline, Refusal>) -> [u64; 20]
    ensures { result ≡ told array_words (array_outcome a) }
{
    match a {
        Err(r) => words::refused(r),
        Ok(ArrayOutline { count, length }) => words::four(count as u64, length as u64, 0, 0),
    }
}

pub fn body_row(a: Result<BodyOutline, Refusal>) -> [u64; 20]
    ensures { result ≡ told body_words (body_outcome a) }
{
    match a {
        Err(r) => words::refused(r),
        Ok(
            BodyOutline {
                type_index,
                count,
                length,
            },
        ) => words::four(type_index as u64, count as u64, length as u64, 0),
    }
}

pub fn picked_row(a: Result<Value, Refusal>) -> [u64; 20]
    ensures { result ≡ told value_words (picked_outcome a) }
{
    match a {
        Err(r) => words::refused(r),
        Ok(v) => words::value(v, 0),
    }
}

pub fn element_row(a: Result<Element, Refusal>) -> [u64; 20]
    ensures { result ≡ told element_words (element_outcome a) }
{
    match a {
        Err(r) => words::refused(r),
        Ok(Element { name, value }) => words::value(value, name),
    }
}

pub fn static_row(a: Result<Option<StaticField>, Refusal>) -> [u64; 20]
    ensures { result ≡ told_if static_words (maybe_field a) }
{
    match a {
        Err(r) => words::refused(r),
        Ok(None) => words::absent(),
        Ok(
            Some(
                StaticField {
                    field,
                    flags,
                    stored,
                    value,
                },
            ),
        ) => words::paired(value, field, flags, stored),
    }
}

pub fn wrong_row(a: Result<Option<WrongKind>, Refusal>) -> [u64; 20]
    ensures { result ≡ told_if wrong_words (maybe_wrong a) }
{
    match a {
        Err(r) => words::refused(r),
        Ok(None) => words::absent(),
        Ok(Some(WrongKind { k, field })) => words::four(k as u64, field as u64, 0, 0),
    }
}
