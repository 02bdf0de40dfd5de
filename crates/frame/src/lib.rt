// What every item of a file is read against: the byte order, the counts that indices are tested by, and the data section that offsets
// are tested by. An item is read from the file up to the data section's end, so that end is a slice's length and not part of a frame.
#![tactic(auto)]

ghost use Rattle.std.specs.Prelude.{◌≡◌};
ghost use Rattle.refusal.specs.Answers.{as_given};
ghost use Rattle.frame.specs.Offsets.{allowed, allowed_or_absent};
ghost use Rattle.frame.specs.Counted.{counted};

use refusal::Refusal;
use word::Endian;

// The slice goes beside it: what holds both, one opened file, is a request of document 02, with a form of its own.
#[derive(Clone, Copy)]
pub struct Frame {
    pub order: Endian,
    pub start: usize,
    pub strings: u32,
    pub types: u32,
    pub protos: u32,
    pub fields: u32,
    pub methods: u32,
    pub handles: u32,
}

// May an item lie at this offset: inside the data section, and at a multiple of 4 where `four` asks for one.
pub fn is_allowed(start: usize, end: usize, four: bool, offset: usize) -> bool
    ensures { result ≡ allowed start end four offset }
{
    if offset < start {
        return false;
    }
    if end <= offset {
        return false;
    }
    if four {
        return offset % 4 == 0;
    }
    true
}

// The same where 0 means absent.
pub fn is_allowed_or_absent(start: usize, end: usize, four: bool, offset: usize) -> bool
    ensures { result ≡ allowed_or_absent start end four offset }
{
    if offset == 0 {
        return true;
    }
    is_allowed(start, end, four, offset)
}

// How many entries of one width the list at a place has: four bytes, and then the entries. One test serves both: a word past the end is read all the same.
pub fn counted(s: &[u8], order: Endian, at: usize, width: u32) -> Result<u32, Refusal>
    ensures { as_given result ≡ counted s.now order at width }
{
    let count = word::u32_at(s, at, order);
    if word::has_room(s.len(), at, 4 + width as usize * count as usize) {
        return Ok(count);
    }
    Err(refusal::runs_past(at))
}
