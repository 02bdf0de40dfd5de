// The parts of a value that hold no other value: its head byte, its bytes as a number, and its index.
// `s` is the file up to the data section's end, so that a position past its length is 9.
#![tactic(auto)]

ghost use Rattle.std.specs.Prelude.{◌≡◌, ◌+◌, ◌*◌, ◌^◌, ◌≤◌, ◌<◌, length};
ghost use Rattle.word.specs.Bytes.{stretch};
ghost use Rattle.value_heads.specs.Kinds.{allowed_head, bytes_of, is_index, walk_of, count_of, in_range};
ghost use Rattle.value_heads.specs.Numbers.{little};
ghost use Rattle.value_heads.specs.Readings.{head_byte_at, number_at, checked_at, index_at};
ghost use Rattle.value_heads.specs.Answers.{head_byte_outcome, number_outcome, Small};
ghost use Rattle.leb128.specs.Answers.{leb_outcome};

use frame::Frame;
use refusal::{Read, Refusal};

// How many arguments each code allows, from 0 on.
pub const ARGUMENTS: [u8; 32] = [
    1, 0, 2, 2, 4, 0, 8, 0, 0, 0, 0, 0, 0, 0, 0, 0, 4, 8, 0, 0, 0, 4, 4, 4, 4, 4, 4, 4, 1, 1, 1, 2,
];

// What stays the same while the bodies of one item are gone over: the item's place, and the counts that indices are tested by.
#[derive(Clone, Copy)]
pub struct Walk {
    pub item: usize,
    pub strings: u32,
    pub types: u32,
    pub protos: u32,
    pub fields: u32,
    pub methods: u32,
    pub handles: u32,
}

pub fn walk_of(frame: Frame, item: usize) -> Walk
    ensures { result ≡ walk_of frame item }
{
    Walk {
        item,
        strings: frame.strings,
        types: frame.types,
        protos: frame.protos,
        fields: frame.fields,
        methods: frame.methods,
        handles: frame.handles,
    }
}

fn is_allowed_head(head: u8) -> bool
    ensures { result ≡ allowed_head head }
{
    head / 32 < ARGUMENTS[(head % 32) as usize]
}

// How many bytes follow the head byte of a value that is no body.
pub fn size_of(head: u8) -> usize
    ensures { result ≡ bytes_of head }
{
    if head % 32 < 0x1c {
        return (head / 32 + 1) as usize;
    }
    0
}

// Is a value of this kind an index.
// Kinds stay the numbers of document 01's table: the C interface hands them out, and `shown` in specs says them.
pub fn is_index_code(code: u8) -> bool
    ensures { result ≡ is_index code }
{
    matches!(code, 0x15..=0x1b)
}

// The count that an index of a code is tested by: an enum is a field.
fn limit_of(w: Walk, code: u8) -> u32
    ensures { result ≡ count_of w code }
{
    match code {
        0x15 => w.protos,
        0x16 => w.handles,
        0x17 => w.strings,
        0x18 => w.types,
        0x1a => w.methods,
        _ => w.fields,
    }
}

// A value's head byte: 9 where it is missing, 12 where it is not allowed.
pub fn head_at(s: &[u8], item: usize, at: usize) -> Result<u8, Refusal>
    ensures { head_byte_outcome result ≡ head_byte_at s.now item at }
{
    if s.len() <= at {
        return Err(refusal::runs_past(item));
    }
    let head = s[at];
    if is_allowed_head(head) {
        return Ok(head);
    }
    Err(refusal::wrong_value(item))
}

// The number of the n bytes from a place on, low first.
fn joined(s: &[u8], at: usize, n: usize) -> u64
    requires { (n ≤ 8) × (at + n ≤ length s.now) }
    ensures { (result ≡ little (stretch s.now at n)) × (result < 2 ^ (8 * n)) }
{
    let mut sum: u64 = 0;
    for i in (0..n).rev() {
        sum = sum * 256 + s[at + i] as u64;
    }
    sum
}

// The number of the bytes that follow a head byte.
fn number_at(s: &[u8], item: usize, at: usize, head: u8) -> Result<Read<u64>, Refusal>
    ensures { (number_outcome result ≡ number_at s.now item at (bytes_of head)) × Small head result }
{
    let n = size_of(head);
    if word::has_room(s.len(), at, n) {
        return Ok(Read {
            value: joined(s, at, n),
            next: at + n,
        });
    }
    Err(refusal::runs_past(item))
}

// Is a number allowed for a code: an index is below its count.
fn is_in_range(w: Walk, code: u8, number: u64) -> bool
    ensures { result ≡ in_range w code number }
{
    if is_index_code(code) {
        return number < limit_of(w, code) as u64;
    }
    true
}

// The number of a value that is no body, behind its head byte: its bytes, then its index.
pub fn checked_number(s: &[u8], w: Walk, at: usize, head: u8) -> Result<Read<u64>, Refusal>
    ensures { (number_outcome result ≡ checked_at s.now w head at) × Small head result }
{
    let Read { value, next } = number_at(s, w.item, at, head)?;
    if is_in_range(w, head % 32, value) {
        return Ok(Read { value, next });
    }
    Err(refusal::wrong_index(w.item))
}

// A LEB128 number that is an index below a count.
pub fn index_at(s: &[u8], item: usize, count: u32, at: usize) -> Result<Read<u32>, Refusal>
    ensures { leb_outcome result ≡ index_at s.now item count at }
{
    let Read { value, next } = leb128::uleb(s, at, item)?;
    if value < count {
        return Ok(Read { value, next });
    }
    Err(refusal::wrong_index(item))
}
