// Going over values, arrays and annotations: every rule of document 01's "Values" is tested, and only the next position is answered.
// `s` is the file up to the data section's end, so that a position past its length is 9.
#![tactic(auto)]

ghost use Rattle.std.specs.Prelude.{◌≡◌};
ghost use Rattle.value_heads.specs.Kinds.{bytes_of};
ghost use Rattle.encoded_value.specs.Readings.{start_at, past_number, past_plain, past_value, past_array, past_annotation};
ghost use Rattle.encoded_value.specs.Depth.{deepest};
ghost use Rattle.encoded_value.specs.Answers.{step_outcome};
ghost use Rattle.encoded_value.specs.Stages.{index_past, past_opened, past_inside, past_values, past_body};
ghost use Rattle.leb128.specs.Answers.{leb_outcome};

use refusal::{Read, Refusal};
use value_heads::Walk;

// How deep bodies may lie one inside the other: `deepest` in the definitions.
pub const DEEPEST: u32 = 64;

// How deep a value of a top body may be: `deepest_value`.
pub const DEEPEST_VALUE: u32 = DEEPEST - 1;

// The bytes that follow a head byte, gone over.
fn bytes_past(s: &[u8], item: usize, at: usize, head: u8) -> Result<usize, Refusal>
    ensures { step_outcome result ≡ past_number s.now item at (bytes_of head) }
{
    let n = value_heads::size_of(head);
    if word::has_room(s.len(), at, n) {
        return Ok(at + n);
    }
    Err(refusal::runs_past(item))
}

// A value that is no body, behind its head byte: only an index is read to be checked.
fn plain_past(s: &[u8], w: Walk, at: usize, head: u8) -> Result<usize, Refusal>
    ensures { step_outcome result ≡ past_plain s.now w head at }
{
    if value_heads::is_index_code(head % 32) {
        let Read { next, .. } = value_heads::checked_number(s, w, at, head)?;
        return Ok(next);
    }
    bytes_past(s, w.item, at, head)
}

// The index that an annotation has in front of its values (its type) and of each of them (its name), gone over. An array has none.
fn index_past(s: &[u8], item: usize, named: bool, count: u32, at: usize) -> Result<usize, Refusal>
    ensures { step_outcome result ≡ index_past s.now item named count at }
{
    if named {
        let Read { next, .. } = value_heads::index_at(s, item, count, at)?;
        return Ok(next);
    }
    Ok(at)
}

// The body that a code opens: 0x1c an array, 0x1d an annotation. It has two callers and so is not compiled in: the loop over values stays small.
#[cycle(bodies)]
fn opened_past(s: &[u8], w: Walk, code: u8, at: usize, left: u32) -> Result<usize, Refusal>
    ensures { step_outcome result ≡ past_opened s.now w left code at }
{
    match code {
        0x1c => array_body(s, w, at, left),
        _ => annotation_body(s, w, at, left),
    }
}

// What stands behind a head byte: the body that it opens, or its bytes. The loop over values is the one caller, and has this compiled in: most values open no body.
#[cycle(bodies)]
fn inside_past(s: &[u8], w: Walk, head: u8, at: usize, left: u32) -> Result<usize, Refusal>
    ensures { step_outcome result ≡ past_inside s.now w left head at }
{
    let code = head % 32;
    match code {
        0x1c | 0x1d => opened_past(s, w, code, at, left),
        _ => plain_past(s, w, at, head),
    }
}

// The values of a body, each with its name in front where the body is an annotation.
#[cycle(bodies)]
fn values_past(
    s: &[u8],
    w: Walk,
    named: bool,
    from: usize,
    count: u32,
    left: u32,
) -> Result<usize, Refusal>
    ensures { step_outcome result ≡ past_values s.now w named left count from }
{
    let mut p = from;
    for _ in 0..count {
        let at = index_past(s, w.item, named, w.strings, p)?;
        let head = value_heads::head_at(s, w.item, at)?;
        p = inside_past(s, w, head, at + 1, left)?;
    }
    Ok(p)
}

// A body, if one more may be opened: the type of an annotation, the size, and the values, of which each may open one body less.
#[cycle(bodies)]
fn body_past(s: &[u8], w: Walk, named: bool, at: usize, left: u32) -> Result<usize, Refusal>
    ensures { step_outcome result ≡ past_body s.now w named left at }
{
    if left <= 0 {
        return Err(refusal::nested_too_deep(w.item));
    }
    let from = index_past(s, w.item, named, w.types, at)?;
    let Read { value: count, next } = leb128::uleb(s, from, w.item)?;
    values_past(s, w, named, next, count, left - 1)
}

// A value: its head byte, then the body that it opens, or its bytes.
pub fn value(s: &[u8], w: Walk, at: usize, left: u32) -> Result<usize, Refusal>
    ensures { step_outcome result ≡ past_value s.now w left at }
{
    let head = value_heads::head_at(s, w.item, at)?;
    let code = head % 32;
    match code {
        0x1c | 0x1d => opened_past(s, w, code, at + 1, left),
        _ => plain_past(s, w, at + 1, head),
    }
}

// An array's body: its size, then its values.
#[cycle(bodies)]
pub fn array_body(s: &[u8], w: Walk, at: usize, left: u32) -> Result<usize, Refusal>
    ensures { step_outcome result ≡ past_array s.now w left at }
{
    body_past(s, w, false, at, left)
}

// An annotation's body: its type, its size, then its named values.
#[cycle(bodies)]
pub fn annotation_body(s: &[u8], w: Walk, at: usize, left: u32) -> Result<usize, Refusal>
    ensures { step_outcome result ≡ past_annotation s.now w left at }
{
    body_past(s, w, true, at, left)
}

// An annotation's type and size: how many elements, and where they start.
pub fn annotation_start(s: &[u8], w: Walk, at: usize) -> Result<Read<u32>, Refusal>
    ensures { leb_outcome result ≡ start_at s.now w at }
{
    let Read { next, .. } = value_heads::index_at(s, w.item, w.types, at)?;
    leb128::uleb(s, next, w.item)
}

// A top body is depth 1, and the deepest that may be opened is DEEPEST.
pub fn top_array(s: &[u8], w: Walk, at: usize) -> Result<usize, Refusal>
    ensures { step_outcome result ≡ past_array s.now w deepest at }
{
    array_body(s, w, at, DEEPEST)
}

pub fn top_annotation(s: &[u8], w: Walk, at: usize) -> Result<usize, Refusal>
    ensures { step_outcome result ≡ past_annotation s.now w deepest at }
{
    annotation_body(s, w, at, DEEPEST)
}
