// Arrays and annotations by number: the body is gone over whole first, then a number that is not there is 7, then the k-th is read out.
#![tactic(auto)]

ghost use Rattle.std.specs.Prelude.{◌≡◌};
ghost use Rattle.encoded_value.specs.Answers.{step_outcome};
ghost use Rattle.value_bodies.specs.Bodies.{array_count, array_value, annotation_noted, annotation_element};
ghost use Rattle.value_bodies.specs.Bodies.{past, element_there, kth_value, kth_element};
ghost use Rattle.value_bodies.specs.Answers.{count_outcome, picked_outcome, annotation_head_outcome, element_outcome};

use decoded_value::Value;
use encoded_value::DEEPEST_VALUE;
use refusal::{Read, Refusal};
use value_heads::Walk;

// An annotation's type, and how many elements it has.
#[derive(Clone, Copy)]
pub struct AnnotationHead {
    pub type_index: u32,
    pub count: u32,
}

#[derive(Clone, Copy)]
pub struct Element {
    pub name: u32,
    pub value: Value,
}

// How many values the array at a place has.
pub fn array_count(s: &[u8], w: Walk, at: usize) -> Result<u32, Refusal>
    ensures { count_outcome result ≡ array_count s.now w at }
{
    encoded_value::top_array(s, w, at)?;
    let Read { value, .. } = leb128::uleb(s, at, w.item)?;
    Ok(value)
}

// Where k values end, one after the other, each behind its name in an annotation. Not the loop of `encoded_value`, which has one caller and is compiled into it.
fn past(s: &[u8], w: Walk, named: bool, from: usize, k: u32) -> Result<usize, Refusal>
    ensures { step_outcome result ≡ past s.now w from named k }
{
    let mut p = from;
    for _ in 0..k {
        let at = if named {
            value_heads::index_at(s, w.item, w.strings, p)?.next
        } else {
            p
        };
        p = encoded_value::value(s, w, at, DEEPEST_VALUE)?;
    }
    Ok(p)
}

// The value behind k others.
fn kth_value(s: &[u8], w: Walk, from: usize, k: u32) -> Result<Value, Refusal>
    ensures { picked_outcome result ≡ kth_value s.now w from k }
{
    let at = past(s, w, false, from, k)?;
    let Read { value, .. } = decoded_value::decode_at(s, w, at, DEEPEST_VALUE)?;
    Ok(value)
}

// Number k of the values of the array at a place.
pub fn array_value(s: &[u8], w: Walk, at: usize, k: u32) -> Result<Value, Refusal>
    ensures { picked_outcome result ≡ array_value s.now w at k }
{
    encoded_value::top_array(s, w, at)?;
    let Read { value: count, next } = leb128::uleb(s, at, w.item)?;
    if k < count {
        return kth_value(s, w, next, k);
    }
    Err(refusal::not_there())
}

// The type of the annotation at a place, and how many elements it has.
pub fn annotation_head(s: &[u8], w: Walk, at: usize) -> Result<AnnotationHead, Refusal>
    ensures { annotation_head_outcome result ≡ annotation_noted s.now w at }
{
    encoded_value::top_annotation(s, w, at)?;
    let Read {
        value: type_index,
        next,
    } = value_heads::index_at(s, w.item, w.types, at)?;
    let Read { value: count, .. } = leb128::uleb(s, next, w.item)?;
    Ok(AnnotationHead { type_index, count })
}

// The element at a place: its name and its value.
fn element_at(s: &[u8], w: Walk, at: usize) -> Result<Element, Refusal>
    ensures { element_outcome result ≡ element_there s.now w at }
{
    let Read { value: name, next } = value_heads::index_at(s, w.item, w.strings, at)?;
    let Read { value, .. } = decoded_value::decode_at(s, w, next, DEEPEST_VALUE)?;
    Ok(Element { name, value })
}

// The element behind k others.
fn kth_element(s: &[u8], w: Walk, from: usize, k: u32) -> Result<Element, Refusal>
    ensures { element_outcome result ≡ kth_element s.now w from k }
{
    let at = past(s, w, true, from, k)?;
    element_at(s, w, at)
}

// Number k of the elements of the annotation at a place.
pub fn annotation_element(s: &[u8], w: Walk, at: usize, k: u32) -> Result<Element, Refusal>
    ensures { element_outcome result ≡ annotation_element s.now w at k }
{
    encoded_value::top_annotation(s, w, at)?;
    let Read { value: count, next } = encoded_value::annotation_start(s, w, at)?;
    if k < count {
        return kth_element(s, w, next, k);
    }
    Err(refusal::not_there())
}
