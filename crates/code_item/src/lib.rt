// Code items, their tries, handlers and pairs by number, and the try that covers an address.
// `s` ends where the data section ends, `item` is the place of the code item.
#![tactic(auto)]

ghost use Rattle.std.specs.Prelude.{◌≡◌, ◌&&◌, ◌+◌, ◌*◌, ◌≤◌, length, ltb, leb};
ghost use Rattle.code_item.specs.Covering.{cover_at};
ghost use Rattle.code_item.specs.Code.{outline_at, covering_of, try_of, handler_of, pair_of, pair_in};
ghost use Rattle.code_item.specs.Answers.{code_outcome, try_outcome, handler_outcome, pair_outcome, cover_meant, cover_outcome};

use code_bodies::{KeptCode, Try};
use code_heads::CodeHead;
use frame::Frame;
use handlers::{Brief, Pair};
use refusal::Refusal;
use word::Endian;

// The sizes, counts and places of a code item: 16 bytes after its place its units begin, its tries at `from`, its handler list at `base`.
#[derive(Clone, Copy)]
pub struct Outline {
    pub head: CodeHead,
    pub handlers: u32,
    pub from: usize,
    pub base: usize,
    pub end: usize,
}

// A try, and the number of its handler in the list.
#[derive(Clone, Copy)]
pub struct NumberedTry {
    pub attempt: Try,
    pub number: u32,
}

// A handler's offset from the list's first byte, how many pairs, and the catch-all's address where there is one.
#[derive(Clone, Copy)]
pub struct HandlerOutline {
    pub offset: usize,
    pub pairs: u32,
    pub all: Option<u32>,
}

// The code item at a place.
pub fn code_at(s: &[u8], frame: Frame, item: usize) -> Result<Outline, Refusal>
    ensures { code_outcome result ≡ outline_at s.now frame item }
{
    let KeptCode {
        head,
        handlers,
        from,
        base,
        end,
        ..
    } = code_bodies::kept_at(s, frame, item, 0, 0, 0)?;
    Ok(Outline {
        head,
        handlers,
        from,
        base,
        end,
    })
}

// Try t of the code item at a place.
pub fn try_at(s: &[u8], frame: Frame, item: usize, t: u32) -> Result<NumberedTry, Refusal>
    ensures { try_outcome result ≡ try_of s.now frame item t }
{
    let KeptCode {
        head,
        attempt,
        link,
        ..
    } = code_bodies::kept_at(s, frame, item, t, 0, 0)?;
    if t < head.tries as u32 {
        return Ok(NumberedTry {
            attempt,
            number: link,
        });
    }
    Err(refusal::not_there())
}

// Handler h of the code item at a place.
pub fn handler_at(s: &[u8], frame: Frame, item: usize, h: u32) -> Result<HandlerOutline, Refusal>
    ensures { handler_outcome result ≡ handler_of s.now frame item h }
{
    let KeptCode {
        handlers,
        brief,
        ..
    } = code_bodies::kept_at(s, frame, item, 0, h, 0)?;
    if h < handlers {
        return Ok(HandlerOutline {
            offset: brief.offset,
            pairs: brief.pairs,
            all: brief.all,
        });
    }
    Err(refusal::not_there())
}

// The pair that is kept of a handler, where it is there.
fn pair_in(b: Brief, k: u32) -> Result<Pair, Refusal>
    ensures { pair_outcome result ≡ pair_in b k }
{
    let pair = b.pair;
    if k < b.pairs {
        return Ok(pair);
    }
    Err(refusal::not_there())
}

// Pair k of handler h of the code item at a place.
pub fn pair_at(s: &[u8], frame: Frame, item: usize, h: u32, k: u32) -> Result<Pair, Refusal>
    ensures { pair_outcome result ≡ pair_of s.now frame item h k }
{
    let KeptCode {
        handlers,
        brief,
        ..
    } = code_bodies::kept_at(s, frame, item, 0, h, k)?;
    if h < handlers {
        return pair_in(brief, k);
    }
    Err(refusal::not_there())
}

// Does a try of `count` units from `start` on cover an address.
fn is_covering(start: u32, count: u16, address: u32) -> bool
    ensures { result ≡ leb start address && ltb address (start + count) }
{
    if address < start {
        return false;
    }
    (address as u64) < start as u64 + count as u64
}

// The first try that covers an address, of those that lie from a place on.
fn cover_at(s: &[u8], order: Endian, from: usize, count: u16, address: u32) -> Option<u32>
    requires { from + 8 * count ≤ length s.now }
    ensures { cover_meant result ≡ cover_at order s.now from count address }
{
    let mut place = from;
    for i in 0..count as u32 {
        let start = word::u32_at(s, place, order);
        let units = word::u16_at(s, place + 4, order);
        if is_covering(start, units, address) {
            return Some(i);
        }
        place += 8;
    }
    None
}

// The try that covers an address, of the code item at a place.
pub fn covering_try(
    s: &[u8],
    frame: Frame,
    item: usize,
    address: u32,
) -> Result<Option<u32>, Refusal>
    ensures { cover_outcome result ≡ covering_of s.now frame item address }
{
    let order = frame.order;
    let KeptCode { head, from, .. } = code_bodies::kept_at(s, frame, item, 0, 0, 0)?;
    Ok(cover_at(s, order, from, head.tries, address))
}
