// LEB128 numbers: at most five bytes, seven bits each, the lowest first.
// `s` ends where the data section ends, `item` is the place of the item that the number is read for.
#![tactic(auto)]

ghost use Rattle.std.specs.Prelude.{◌≡◌};
ghost use Rattle.leb128.specs.Leb.{uleb_at, sleb_at, plus_one_at, weighed_at};
ghost use Rattle.leb128.specs.Answers.{weighed_outcome, leb_outcome, signed_outcome, plus_one_outcome};

use refusal::{Read, Refusal};

// The low seven bits of one to five bytes joined, 128 to the count of the bytes, and the place after them.
#[derive(Clone, Copy)]
pub struct Weighed {
    pub value: u64,
    pub scale: u64,
    pub next: usize,
}

// The bytes of a number: 9 where the data ends before their last, 10 where the fifth is not the last.
fn weigh(s: &[u8], at: usize, item: usize) -> Result<Weighed, Refusal>
    ensures { weighed_outcome result ≡ weighed_at s.now item at }
{
    let mut p = at;
    let mut value: u64 = 0;
    let mut scale: u64 = 1;
    for k in 0..5u32 {
        if s.len() <= p {
            return Err(refusal::runs_past(item));
        }
        let b = s[p] as u64;
        let low = b % 128;
        p += 1;
        if b < 128 {
            return Ok(Weighed {
                value: value + scale * low,
                scale: scale * 128,
                next: p,
            });
        }
        value += scale * low;
        scale *= 128;
    }
    Err(refusal::malformed_number(item))
}

// An unsigned number. Most have one byte, which is the number: that case comes first and calls nothing.
pub fn uleb(s: &[u8], at: usize, item: usize) -> Result<Read<u32>, Refusal>
    ensures { leb_outcome result ≡ uleb_at s.now item at }
{
    if at < s.len() {
        let only = s[at];
        if only < 128 {
            return Ok(Read {
                value: only as u32,
                next: at + 1,
            });
        }
    }
    let n = weigh(s, at, item)?;
    if n.value < 4294967296 {
        return Ok(Read {
            value: n.value as u32,
            next: n.next,
        });
    }
    Err(refusal::malformed_number(item))
}

// A signed number: what was read, less the scale where the highest bit read is set. One byte comes first here too.
pub fn sleb(s: &[u8], at: usize, item: usize) -> Result<Read<i32>, Refusal>
    ensures { signed_outcome result ≡ sleb_at s.now item at }
{
    if at < s.len() {
        let only = s[at];
        if only < 64 {
            return Ok(Read {
                value: only as i32,
                next: at + 1,
            });
        }
        if only < 128 {
            let low = (127 - only) as i32;
            return Ok(Read {
                value: -1 - low,
                next: at + 1,
            });
        }
    }
    let Weighed { value, scale, next } = weigh(s, at, item)?;
    if 2 * value < scale {
        if value < 2147483648 {
            return Ok(Read {
                value: value as i32,
                next,
            });
        }
        return Err(refusal::malformed_number(item));
    }
    let below = scale - value;
    if below <= 2147483648 {
        let low = (below - 1) as i32;
        return Ok(Read {
            value: -1 - low,
            next,
        });
    }
    Err(refusal::malformed_number(item))
}

// A plus-one number: none when 0, otherwise one less.
pub fn uleb_p1(s: &[u8], at: usize, item: usize) -> Result<Read<Option<u32>>, Refusal>
    ensures { plus_one_outcome result ≡ plus_one_at s.now item at }
{
    let n = uleb(s, at, item)?;
    if 0 < n.value {
        return Ok(Read {
            value: Some(n.value - 1),
            next: n.next,
        });
    }
    Ok(Read {
        value: None,
        next: n.next,
    })
}
