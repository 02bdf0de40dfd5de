// Arrays and annotation bodies by place.
ghost use Rattle.std.specs.Prelude.{◌≡◌};
ghost use Rattle.value_bodies.specs.Answers.{picked_outcome, element_outcome};
ghost use Rattle.value_readers.specs.Bodies.{array_body, noted_body, array_of, array_value_of, body_of, body_element_of};
ghost use Rattle.value_readers.specs.Answers.{array_outcome, body_outcome};

use super::{ArrayOutline, BodyOutline};
use decoded_value::Value;
use refusal::Refusal;
use value_bodies::{AnnotationHead, Element};
use value_heads::Walk;

// An array's size, and its length in bytes.
fn array_body(s: &[u8], w: Walk, place: usize) -> Result<ArrayOutline, Refusal>
    ensures { array_outcome result ≡ array_body s.now w place }
{
    let count = value_bodies::array_count(s, w, place)?;
    let end = encoded_value::top_array(s, w, place)?;
    Ok(ArrayOutline {
        count,
        length: end - place,
    })
}

// The size of the array at a place, and its length in bytes.
pub fn array(f: &[u8], place: usize) -> Result<ArrayOutline, Refusal>
    ensures { array_outcome result ≡ array_of f.now place }
{
    let o = super::opening::open_within(f, place)?;
    array_body(
        header::up_to_end(f, o.header),
        super::opening::walk_in(o.header, o.handles, place),
        place,
    )
}

// Value k of the array at a place.
pub fn array_value(f: &[u8], place: usize, k: u32) -> Result<Value, Refusal>
    ensures { picked_outcome result ≡ array_value_of f.now place k }
{
    let o = super::opening::open_within(f, place)?;
    value_bodies::array_value(
        header::up_to_end(f, o.header),
        super::opening::walk_in(o.header, o.handles, place),
        place,
        k,
    )
}

// An annotation body's type and size, and its length in bytes.
fn noted_body(s: &[u8], w: Walk, place: usize) -> Result<BodyOutline, Refusal>
    ensures { body_outcome result ≡ noted_body s.now w place }
{
    let AnnotationHead { type_index, count } = value_bodies::annotation_head(s, w, place)?;
    let end = encoded_value::top_annotation(s, w, place)?;
    Ok(BodyOutline {
        type_index,
        count,
        length: end - place,
    })
}

// The type and the size of the annotation body at a place, and its length in bytes.
pub fn annotation_body(f: &[u8], place: usize) -> Result<BodyOutline, Refusal>
    ensures { body_outcome result ≡ body_of f.now place }
{
    let o = super::opening::open_within(f, place)?;
    noted_body(
        header::up_to_end(f, o.header),
        super::opening::walk_in(o.header, o.handles, place),
        place,
    )
}

// Element k of the annotation body at a place.
pub fn annotation_body_element(f: &[u8], place: usize, k: u32) -> Result<Element, Refusal>
    ensures { element_outcome result ≡ body_element_of f.now place k }
{
    let o = super::opening::open_within(f, place)?;
    value_bodies::annotation_element(
        header::up_to_end(f, o.header),
        super::opening::walk_in(o.header, o.handles, place),
        place,
        k,
    )
}
