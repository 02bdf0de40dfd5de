// The records of classes.
#![tactic(auto)]

ghost use Rattle.std.specs.Prelude.{◌≡◌};
ghost use Rattle.class_ids.specs.Classes.{index_or_none, maybe_of, words_at, first_of, middle_of, places_of, class_of, class_at};
ghost use Rattle.class_ids.specs.Answers.{class_outcome};

use frame::Frame;
use refusal::Refusal;
use word::Endian;

// A class: an offset of 0 means absent.
#[derive(Clone, Copy)]
pub struct Class {
    pub class: u32,
    pub flags: u32,
    pub superclass: Option<u32>,
    pub interfaces: u32,
    pub source: Option<u32>,
    pub directory: u32,
    pub data: u32,
    pub values: u32,
}

// The eight words of a record.
#[derive(Clone, Copy)]
pub struct ClassWords {
    pub class: u32,
    pub flags: u32,
    pub superclass: u32,
    pub interfaces: u32,
    pub source: u32,
    pub directory: u32,
    pub data: u32,
    pub values: u32,
}

// Is this an index below the count, or none.
fn is_index_or_none(v: u32, count: u32) -> bool
    ensures { result ≡ index_or_none v count }
{
    if v == 4294967295 {
        return true;
    }
    v < count
}

// An index, or none: 0xFFFFFFFF means none.
fn maybe_of(v: u32) -> Option<u32>
    ensures { result ≡ maybe_of v }
{
    if v == 4294967295 {
        return None;
    }
    Some(v)
}

fn words_at(f: &[u8], order: Endian, offset: u32, n: u32) -> ClassWords
    ensures { result ≡ words_at f.now order offset n }
{
    let p = offset as usize + 32 * n as usize;
    ClassWords {
        class: word::u32_at(f, p, order),
        flags: word::u32_at(f, p + 4, order),
        superclass: word::u32_at(f, p + 8, order),
        interfaces: word::u32_at(f, p + 12, order),
        source: word::u32_at(f, p + 16, order),
        directory: word::u32_at(f, p + 20, order),
        data: word::u32_at(f, p + 24, order),
        values: word::u32_at(f, p + 28, order),
    }
}

// What the words say.
fn class_of(w: ClassWords) -> Class
    ensures { result ≡ class_of w }
{
    Class {
        class: w.class,
        flags: w.flags,
        superclass: maybe_of(w.superclass),
        interfaces: w.interfaces,
        source: maybe_of(w.source),
        directory: w.directory,
        data: w.data,
        values: w.values,
    }
}

// The rules of the last three words: directory, class data, static values.
fn places_of(start: usize, end: usize, place: usize, w: ClassWords) -> Result<Class, Refusal>
    ensures { class_outcome result ≡ places_of start end place w }
{
    if !frame::is_allowed_or_absent(start, end, true, w.directory as usize) {
        return Err(refusal::wrong_offset(place));
    }
    if !frame::is_allowed_or_absent(start, end, false, w.data as usize) {
        return Err(refusal::wrong_offset(place));
    }
    if !frame::is_allowed_or_absent(start, end, false, w.values as usize) {
        return Err(refusal::wrong_offset(place));
    }
    Ok(class_of(w))
}

// The rules of the words before those: interfaces, source file.
fn middle_of(frame: Frame, end: usize, place: usize, w: ClassWords) -> Result<Class, Refusal>
    ensures { class_outcome result ≡ middle_of frame end place w }
{
    if !frame::is_allowed_or_absent(frame.start, end, true, w.interfaces as usize) {
        return Err(refusal::wrong_offset(place));
    }
    if !is_index_or_none(w.source, frame.strings) {
        return Err(refusal::wrong_index(place));
    }
    places_of(frame.start, end, place, w)
}

// The rules of the words in stored order: class, superclass, then the others.
fn first_of(frame: Frame, end: usize, place: usize, w: ClassWords) -> Result<Class, Refusal>
    ensures { class_outcome result ≡ first_of frame end place w }
{
    if frame.types <= w.class {
        return Err(refusal::wrong_index(place));
    }
    if !is_index_or_none(w.superclass, frame.types) {
        return Err(refusal::wrong_index(place));
    }
    middle_of(frame, end, place, w)
}

// Class n of the table that begins at an offset.
pub fn class_at(f: &[u8], frame: Frame, end: usize, offset: u32, n: u32) -> Result<Class, Refusal>
    ensures { class_outcome result ≡ class_at f.now frame end offset n }
{
    first_of(
        frame,
        end,
        offset as usize + 32 * n as usize,
        words_at(f, frame.order, offset, n),
    )
}
