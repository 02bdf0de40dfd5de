// Annotation sets and reference lists: a size, then offsets. One piece serves both: is 0 an absent item, must the others be multiples of 4.
// `s` is the file up to the data section's end, so that what runs past its length is 9; all faults of an item are at its own place.
#![tactic(auto)]

ghost use Rattle.std.specs.Prelude.{◌≡◌, true, false, ◌+◌, ◌*◌, ◌≤◌, length};
ghost use Rattle.annotation_lists.specs.Offsets.{offset_allowed, word_at, offset_at, offsets_pass, offset_count, offset_number};
ghost use Rattle.refusal.specs.Answers.{checked_outcome};
ghost use Rattle.annotation_lists.specs.Answers.{word_outcome};

use frame::Frame;
use refusal::Refusal;

// A word of four bytes, 9 where it is missing.
pub fn word_at(s: &[u8], frame: Frame, item: usize, at: usize) -> Result<u32, Refusal>
    ensures { word_outcome result ≡ word_at s.now frame item at }
{
    let order = frame.order;
    if word::has_room(s.len(), at, 4) {
        return Ok(word::u32_at(s, at, order));
    }
    Err(refusal::runs_past(item))
}

// May an item lie at this offset.
fn is_offset(start: usize, end: usize, absent: bool, four: bool, offset: usize) -> bool
    ensures { result ≡ offset_allowed start end absent four offset }
{
    if absent {
        return frame::is_allowed_or_absent(start, end, four, offset);
    }
    frame::is_allowed(start, end, four, offset)
}

// The offset at a place.
#[inline(always)]
fn offset_at(
    s: &[u8],
    frame: Frame,
    item: usize,
    absent: bool,
    four: bool,
    at: usize,
) -> Result<u32, Refusal>
    ensures { word_outcome result ≡ offset_at s.now frame item absent four at }
{
    let order = frame.order;
    let offset = word::u32_at(s, at, order);
    if is_offset(frame.start, s.len(), absent, four, offset as usize) {
        return Ok(offset);
    }
    Err(refusal::wrong_offset(item))
}

// All offsets from a place on, which lie within the slice: `offset_count` has just tested that, and a struct of the three would be made for that one call.
#[inline(always)]
fn offsets_pass(
    s: &[u8],
    frame: Frame,
    item: usize,
    absent: bool,
    four: bool,
    from: usize,
    count: u32,
) -> Result<(), Refusal>
    requires { from + 4 * count ≤ length s.now }
    ensures { checked_outcome result ≡ offsets_pass s.now frame item absent four from count }
{
    let mut at = from;
    for _ in 0..count {
        offset_at(s, frame, item, absent, four, at)?;
        at += 4;
    }
    Ok(())
}

// How many offsets a list has: its size, its length, then its offsets. It is compiled into the going over a set, whatever its other callers are.
#[inline(always)]
pub fn offset_count(
    s: &[u8],
    frame: Frame,
    item: usize,
    absent: bool,
    four: bool,
) -> Result<u32, Refusal>
    ensures { word_outcome result ≡ offset_count s.now frame item absent four }
{
    let count = frame::counted(s, frame.order, item, 4)?;
    offsets_pass(s, frame, item, absent, four, item + 4, count)?;
    Ok(count)
}

// Number k of a list's offsets.
fn offset_number(
    s: &[u8],
    frame: Frame,
    item: usize,
    absent: bool,
    four: bool,
    k: u32,
) -> Result<u32, Refusal>
    ensures { word_outcome result ≡ offset_number s.now frame item absent four k }
{
    let count = offset_count(s, frame, item, absent, four)?;
    if k < count {
        return offset_at(s, frame, item, absent, four, item + 4 + 4 * k as usize);
    }
    Err(refusal::not_there())
}

// How many annotation items a set has.
pub fn set_count(s: &[u8], frame: Frame, item: usize) -> Result<u32, Refusal>
    ensures { word_outcome result ≡ offset_count s.now frame item false false }
{
    offset_count(s, frame, item, false, false)
}

// Where number k of a set's annotation items is.
pub fn set_offset(s: &[u8], frame: Frame, item: usize, k: u32) -> Result<u32, Refusal>
    ensures { word_outcome result ≡ offset_number s.now frame item false false k }
{
    offset_number(s, frame, item, false, false, k)
}

// How many sets a reference list has, absent ones too.
pub fn reference_count(s: &[u8], frame: Frame, item: usize) -> Result<u32, Refusal>
    ensures { word_outcome result ≡ offset_count s.now frame item true true }
{
    offset_count(s, frame, item, true, true)
}

// Where number k of a reference list's sets is, 0 where it is absent.
pub fn reference_offset(s: &[u8], frame: Frame, item: usize, k: u32) -> Result<u32, Refusal>
    ensures { word_outcome result ≡ offset_number s.now frame item true true k }
{
    offset_number(s, frame, item, true, true, k)
}
