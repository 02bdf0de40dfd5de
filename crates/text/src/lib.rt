// Texts in modified UTF-8: a string data item read at a place.
// `s` ends where the data section ends, `item` is the place of the string data item.
#![tactic(auto)]

ghost use Rattle.std.specs.Prelude.{◌≡◌, ◌+◌, ◌<◌, ◌≤◌, length};
ghost use Rattle.text.specs.Text.{two_at, three_at, wide_at, count_at, extent_at};
ghost use Rattle.text.specs.Singles.{FewSingles};
ghost use Rattle.text.specs.Answers.{wide_outcome, count_outcome, text_outcome};

use refusal::{Read, Refusal};

// How many units a text has, and the place of its zero byte.
#[derive(Clone, Copy)]
pub struct UnitCount {
    pub units: usize,
    pub zero: usize,
}

// Where a text's bytes begin, how many there are without the zero, and how many units.
#[derive(Clone, Copy)]
pub struct TextPlace {
    pub start: usize,
    pub length: usize,
    pub units: u32,
}

// The functions below are asked where `count_at` has just looked at the byte at `p`: a struct of slice and place would be made for each call and taken apart in it.

// A form of two bytes: 9 where the second is not there, 14 where it does not follow or one byte is enough.
fn two_at(s: &[u8], item: usize, p: usize) -> Result<Read<u32>, Refusal>
    requires { p < length s.now }
    ensures { wide_outcome result ≡ two_at s.now item p }
{
    if s.len() - p < 2 {
        return Err(refusal::runs_past(item));
    }
    let a = s[p] as u32;
    let b = s[p + 1] as u32;
    if b / 64 != 2 {
        return Err(refusal::malformed_text(item));
    }
    let unit = a % 32 * 64 + b % 64;
    if 0x80 <= unit {
        return Ok(Read {
            value: unit,
            next: p + 2,
        });
    }
    // U+0000 is c0 80
    if unit == 0 {
        return Ok(Read {
            value: unit,
            next: p + 2,
        });
    }
    Err(refusal::malformed_text(item))
}

// A form of three bytes: 9 where one is not there, 14 where one does not follow or two bytes are enough.
fn three_at(s: &[u8], item: usize, p: usize) -> Result<Read<u32>, Refusal>
    requires { p < length s.now }
    ensures { wide_outcome result ≡ three_at s.now item p }
{
    if s.len() - p < 3 {
        return Err(refusal::runs_past(item));
    }
    let a = s[p] as u32;
    let b = s[p + 1] as u32;
    if b / 64 != 2 {
        return Err(refusal::malformed_text(item));
    }
    let c = s[p + 2] as u32;
    if c / 64 != 2 {
        return Err(refusal::malformed_text(item));
    }
    let unit = a % 16 * 4096 + b % 64 * 64 + c % 64;
    if unit < 0x800 {
        return Err(refusal::malformed_text(item));
    }
    Ok(Read {
        value: unit,
        next: p + 3,
    })
}

// A form of two or three bytes, by its first.
fn wide_at(s: &[u8], item: usize, p: usize) -> Result<Read<u32>, Refusal>
    requires { p < length s.now }
    ensures { wide_outcome result ≡ wide_at s.now item p }
{
    if s[p] / 32 == 6 {
        return two_at(s, item, p);
    }
    if s[p] / 16 == 14 {
        return three_at(s, item, p);
    }
    Err(refusal::malformed_text(item))
}

// How many of the eight bytes from a place on are forms of one byte, up to the first that is none; 0 where the slice has no eight bytes more. The loop has a fixed
// length, which the compiler unrolls.
fn singles_at(s: &[u8], p: usize) -> usize
    requires { p < length s.now }
    ensures { FewSingles s.now p result }
{
    if s.len() - p < 8 {
        return 0;
    }
    for n in 0..8usize {
        if s[p + n] == 0 || 0x80 <= s[p + n] {
            return n;
        }
    }
    8
}

// The units from `start` up to the zero byte, counted: forms of one byte by eight, and then the form behind them. A `while`, since a turn moves on by more than one.
fn count_at(s: &[u8], item: usize, start: usize) -> Result<UnitCount, Refusal>
    ensures { count_outcome result ≡ count_at s.now item start }
{
    let mut p = start;
    let mut units: usize = 0;
    while p < s.len() {
        let n = singles_at(s, p);
        p += n;
        units += n;
        if 8 <= n {
            continue;
        }
        if s[p] < 0x80 {
            if 0 < s[p] {
                p += 1;
                units += 1;
                continue;
            }
            return Ok(UnitCount { units, zero: p });
        }
        let Read { next, .. } = wide_at(s, item, p)?;
        p = next;
        units += 1;
    }
    Err(refusal::runs_past(item))
}

// A string data item: its length, its units, and the length compared at the zero byte.
pub fn string_at(s: &[u8], item: usize) -> Result<TextPlace, Refusal>
    ensures { text_outcome result ≡ extent_at s.now item }
{
    let Read { value, next } = leb128::uleb(s, item, item)?;
    let UnitCount { units, zero } = count_at(s, item, next)?;
    let length = zero - next;
    if units != value as usize {
        return Err(refusal::malformed_text(item));
    }
    Ok(TextPlace {
        start: next,
        length,
        units: units as u32,
    })
}
