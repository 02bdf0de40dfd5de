// The annotation item: a visibility, then an annotation body at depth 1.
// `s` is the file up to the data section's end, so that what runs past its length is 9; all faults of an item are at its own place.
#![tactic(auto)]

ghost use Rattle.std.specs.Prelude.{◌≡◌};
ghost use Rattle.value_bodies.specs.Answers.{element_outcome};
ghost use Rattle.annotation_items.specs.Items.{visibility_at, item_visibility, item_summary, item_element};
ghost use Rattle.annotation_items.specs.Answers.{visibility_outcome, summary_outcome};

use frame::Frame;
use refusal::Refusal;
use value_bodies::{AnnotationHead, Element};

// An annotation's visibility, its type, and how many elements it has.
#[derive(Clone, Copy)]
pub struct Summary {
    pub visibility: u8,
    pub type_index: u32,
    pub count: u32,
}

// The visibility byte.
fn visibility_at(s: &[u8], item: usize) -> Result<u8, Refusal>
    ensures { visibility_outcome result ≡ visibility_at s.now item }
{
    if s.len() <= item {
        return Err(refusal::runs_past(item));
    }
    let visibility = s[item];
    if visibility <= 2 {
        return Ok(visibility);
    }
    Err(refusal::unknown_kind(item))
}

// The annotation item at a place, gone over whole: its visibility.
pub fn annotation_item(s: &[u8], frame: Frame, item: usize) -> Result<u8, Refusal>
    ensures { visibility_outcome result ≡ item_visibility s.now frame item }
{
    let visibility = visibility_at(s, item)?;
    encoded_value::top_annotation(s, value_heads::walk_of(frame, item), item + 1)?;
    Ok(visibility)
}

// The annotation item at a place: its visibility, its type, and how many elements it has.
pub fn annotation(s: &[u8], frame: Frame, item: usize) -> Result<Summary, Refusal>
    ensures { summary_outcome result ≡ item_summary s.now frame item }
{
    let visibility = visibility_at(s, item)?;
    let AnnotationHead { type_index, count } = value_bodies::annotation_head(
        s,
        value_heads::walk_of(frame, item),
        item + 1,
    )?;
    Ok(Summary {
        visibility,
        type_index,
        count,
    })
}

// Element k of the annotation item at a place: its name and its value.
pub fn annotation_element(s: &[u8], frame: Frame, item: usize, k: u32) -> Result<Element, Refusal>
    ensures { element_outcome result ≡ item_element s.now frame item k }
{
    visibility_at(s, item)?;
    value_bodies::annotation_element(s, value_heads::walk_of(frame, item), item + 1, k)
}
