// The handler list of a code item: for each handler its pairs of a type and an address, and a catch-all.
// `s` ends where the data section ends, `item` is the place of the code item, `base` that of the list.
#![tactic(auto)]

ghost use Rattle.std.specs.Prelude.{◌≡◌, ◌-◌};
ghost use Rattle.leb128.specs.Answers.{leb_outcome};
ghost use Rattle.handlers.specs.Handlers.{catches, address_at, pair_at, kept_pairs, all_at, rest_at, kept_handler, kept_list, kept_handlers_at};
ghost use Rattle.handlers.specs.Answers.{pair_outcome, all_outcome, brief_outcome, list_outcome};

use refusal::{Read, Refusal};

// The number of a type, and the address of the code that handles it.
#[derive(Clone, Copy)]
pub struct Pair {
    pub kind: u32,
    pub address: u32,
}

// What items are judged by: how many types there are, how many units, and where the handler list begins.
#[derive(Clone, Copy)]
pub struct HandlerJudge {
    pub types: u32,
    pub units: u32,
    pub item: usize,
    pub base: usize,
}

// A handler with one of its pairs: its offset from the list's first byte, how many pairs, and the catch-all's address where there is one.
#[derive(Clone, Copy)]
pub struct Brief {
    pub offset: usize,
    pub pairs: u32,
    pub pair: Pair,
    pub all: Option<u32>,
}

// How many handlers, one of them, where the first begins, and the place after the list.
#[derive(Clone, Copy)]
pub struct HandlerList {
    pub count: u32,
    pub brief: Brief,
    pub first: usize,
    pub end: usize,
}

// Has a handler of this size a catch-all.
fn is_catching(size: i32) -> bool
    ensures { result ≡ catches size }
{
    if 0 < size {
        return false;
    }
    true
}

// An address: below the unit count.
fn address_at(s: &[u8], j: HandlerJudge, at: usize) -> Result<Read<u32>, Refusal>
    ensures { leb_outcome result ≡ address_at s.now j at }
{
    let item = j.item;
    let Read { value, next } = leb128::uleb(s, at, item)?;
    if value < j.units {
        return Ok(Read { value, next });
    }
    Err(refusal::wrong_code(item))
}

// A pair: a type, and then an address.
fn pair_found(s: &[u8], j: HandlerJudge, at: usize) -> Result<Read<Pair>, Refusal>
    ensures { pair_outcome result ≡ pair_at s.now j at }
{
    let item = j.item;
    let Read { value: kind, next } = leb128::uleb(s, at, item)?;
    if kind < j.types {
        let Read {
            value: address,
            next: after,
        } = address_at(s, j, next)?;
        return Ok(Read {
            value: Pair { kind, address },
            next: after,
        });
    }
    Err(refusal::wrong_index(item))
}

// All pairs of a handler, of which number k is kept.
fn pairs_at(
    s: &[u8],
    j: HandlerJudge,
    from: usize,
    count: u32,
    k: u32,
) -> Result<Read<Pair>, Refusal>
    ensures { pair_outcome result ≡ kept_pairs s.now j from count k }
{
    let mut p = from;
    let mut kept = Pair {
        kind: 0,
        address: 0,
    };
    for i in 0..count {
        let Read { value: pair, next } = pair_found(s, j, p)?;
        kept = refusal::newer(i == k, pair, kept);
        p = next;
    }
    Ok(Read {
        value: kept,
        next: p,
    })
}

// The catch-all of a handler of this size.
fn all_at(s: &[u8], j: HandlerJudge, size: i32, at: usize) -> Result<Read<Option<u32>>, Refusal>
    ensures { all_outcome result ≡ all_at s.now j size at }
{
    if is_catching(size) {
        let Read { value, next } = address_at(s, j, at)?;
        return Ok(Read {
            value: Some(value),
            next,
        });
    }
    Ok(Read {
        value: None,
        next: at,
    })
}

// How far a place is from another, 0 where it is before.
fn offset_of(at: usize, base: usize) -> usize
    ensures { result ≡ at - base }
{
    if at < base {
        return 0;
    }
    at - base
}

// What follows a handler's size.
fn rest_at(
    s: &[u8],
    j: HandlerJudge,
    offset: usize,
    pairs: u32,
    size: i32,
    from: usize,
    k: u32,
) -> Result<Read<Brief>, Refusal>
    ensures { brief_outcome result ≡ rest_at s.now j offset pairs size from k }
{
    let Read { value: pair, next } = pairs_at(s, j, from, pairs, k)?;
    let Read {
        value: all,
        next: end,
    } = all_at(s, j, size, next)?;
    Ok(Read {
        value: Brief {
            offset,
            pairs,
            pair,
            all,
        },
        next: end,
    })
}

// A handler, of which pair k is kept.
pub fn handler_found(s: &[u8], j: HandlerJudge, at: usize, k: u32) -> Result<Read<Brief>, Refusal>
    ensures { brief_outcome result ≡ kept_handler s.now j k at }
{
    let offset = offset_of(at, j.base);
    let Read { value: size, next } = leb128::sleb(s, at, j.item)?;
    let pairs = sign::magnitude_of(size);
    rest_at(s, j, offset, pairs, size, next, k)
}

// All handlers from a place on, of which pair k of handler h is kept.
fn list_found(
    s: &[u8],
    j: HandlerJudge,
    from: usize,
    count: u32,
    h: u32,
    k: u32,
) -> Result<Read<Brief>, Refusal>
    ensures { brief_outcome result ≡ kept_list s.now j from count h k }
{
    let mut p = from;
    let mut kept = Brief {
        offset: 0,
        pairs: 0,
        pair: Pair {
            kind: 0,
            address: 0,
        },
        all: None,
    };
    for i in 0..count {
        let Read { value: brief, next } = handler_found(s, j, p, k)?;
        kept = refusal::newer(i == h, brief, kept);
        p = next;
    }
    Ok(Read {
        value: kept,
        next: p,
    })
}

// The handler list, of which pair k of handler h is kept.
pub fn handlers_at(s: &[u8], j: HandlerJudge, h: u32, k: u32) -> Result<HandlerList, Refusal>
    ensures { list_outcome result ≡ kept_handlers_at s.now j h k }
{
    let item = j.item;
    let Read {
        value: count,
        next: first,
    } = leb128::uleb(s, j.base, item)?;
    if 0 < count {
        let Read {
            value: brief,
            next: end,
        } = list_found(s, j, first, count, h, k)?;
        return Ok(HandlerList {
            count,
            brief,
            first,
            end,
        });
    }
    Err(refusal::wrong_code(item))
}
