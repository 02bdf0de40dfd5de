// A code item whole: its units, tries, handler list and links, of which one try, one handler and one pair are kept.
// `s` ends where the data section ends, `item` is the place of the code item.
#![tactic(auto)]

ghost use Rattle.std.specs.Prelude.{◌≡◌, ◌+◌, ◌*◌, ◌≤◌, length};
ghost use Rattle.code_bodies.specs.Tries.{try_at, try_allowed, kept_try, link_from, kept_link};
ghost use Rattle.code_bodies.specs.Code.{linked_stage, listed_stage, parts_stage, body_stage, kept_code_at};
ghost use Rattle.code_bodies.specs.Answers.{try_found, link_outcome, kept_code_outcome};

use code_heads::CodeHead;
use frame::Frame;
use handlers::{Brief, HandlerJudge, HandlerList, Pair};
use refusal::{Read, Refusal};
use word::Endian;

// A try: its first unit, how many units, and its handler's offset from the handler list's first byte.
#[derive(Clone, Copy)]
pub struct Try {
    pub start: u32,
    pub count: u16,
    pub handler: u16,
}

// The whole, with one try and its handler's number, and one handler.
#[derive(Clone, Copy)]
pub struct KeptCode {
    pub head: CodeHead,
    pub attempt: Try,
    pub link: u32,
    pub handlers: u32,
    pub brief: Brief,
    pub from: usize,
    pub base: usize,
    pub end: usize,
}

// The try at a place.
fn try_read(s: &[u8], order: Endian, at: usize) -> Try
    requires { at + 8 ≤ length s.now }
    ensures { result ≡ try_at order s.now at }
{
    Try {
        start: word::u32_at(s, at, order),
        count: word::u16_at(s, at + 4, order),
        handler: word::u16_at(s, at + 6, order),
    }
}

// Does a try lie within the instructions, at or after the previous try's end.
fn is_try_allowed(units: u32, floor: u64, t: Try) -> bool
    ensures { result ≡ try_allowed units floor t }
{
    let start = t.start as u64;
    if start < floor {
        return false;
    }
    start + t.count as u64 <= units as u64
}

// The five functions below are stages of one body, each called once: `body_at` tests what they require, and a struct of it would be handed on through memory.

// All tries, of which number k is kept.
fn tries_found(
    s: &[u8],
    order: Endian,
    units: u32,
    item: usize,
    from: usize,
    count: u16,
    k: u32,
) -> Result<Try, Refusal>
    requires { from + 8 * count ≤ length s.now }
    ensures { try_found result ≡ kept_try order s.now units item from count k }
{
    let mut place = from;
    let mut floor: u64 = 0;
    let mut kept = Try {
        start: 0,
        count: 0,
        handler: 0,
    };
    for i in 0..count as u32 {
        let t = try_read(s, order, place);
        if is_try_allowed(units, floor, t) {
            kept = refusal::newer(i == k, t, kept);
            floor = t.start as u64 + t.count as u64;
        } else {
            return Err(refusal::wrong_code(item));
        }
        place += 8;
    }
    Ok(kept)
}

// The handler's number of each try, of which that of try k is kept. Each try's handler offset is looked for among the starts of the
// `handlers` handlers from `first` on, which are gone over again for each try.
fn links_at(
    s: &[u8],
    order: Endian,
    j: HandlerJudge,
    first: usize,
    handlers: u32,
    from: usize,
    count: u16,
    k: u32,
) -> Result<u32, Refusal>
    requires { from + 8 * count ≤ length s.now }
    ensures { link_outcome result ≡ kept_link order s.now j first handlers from count k }
{
    let mut place = from;
    let mut kept: u32 = 0;
    'tries: for i in 0..count as u32 {
        let want = word::u16_at(s, place + 6, order) as usize;
        let mut p = first;
        for number in 0..handlers {
            let Read { value: brief, next } = handlers::handler_found(s, j, p, 0)?;
            if brief.offset == want {
                kept = refusal::newer(i == k, number, kept);
                place += 8;
                continue 'tries;
            }
            p = next;
        }
        return Err(refusal::wrong_code(j.item));
    }
    Ok(kept)
}

// The handler list of an item with tries, and then the tries' handler offsets.
fn linked_at(
    s: &[u8],
    order: Endian,
    j: HandlerJudge,
    head: CodeHead,
    attempt: Try,
    from: usize,
    t: u32,
    h: u32,
    k: u32,
) -> Result<KeptCode, Refusal>
    requires { from + 8 * head.tries ≤ length s.now }
    ensures { kept_code_outcome result ≡ linked_stage s.now order j head attempt from t h k }
{
    let HandlerList {
        count,
        brief,
        first,
        end,
    } = handlers::handlers_at(s, j, h, k)?;
    let link = links_at(s, order, j, first, count, from, head.tries, t)?;
    Ok(KeptCode {
        head,
        attempt,
        link,
        handlers: count,
        brief,
        from,
        base: j.base,
        end,
    })
}

// Without tries there is no handler list.
fn listed_at(
    s: &[u8],
    order: Endian,
    j: HandlerJudge,
    head: CodeHead,
    attempt: Try,
    from: usize,
    t: u32,
    h: u32,
    k: u32,
) -> Result<KeptCode, Refusal>
    requires { from + 8 * head.tries ≤ length s.now }
    ensures { kept_code_outcome result ≡ listed_stage s.now order j head attempt from t h k }
{
    let tries = head.tries;
    if 0 < tries {
        return linked_at(s, order, j, head, attempt, from, t, h, k);
    }
    Ok(KeptCode {
        head,
        attempt,
        link: 0,
        handlers: 0,
        brief: Brief {
            offset: 0,
            pairs: 0,
            pair: Pair {
                kind: 0,
                address: 0,
            },
            all: None,
        },
        from,
        base: j.base,
        end: j.base,
    })
}

// The tries, and what follows them.
fn parts_at(
    s: &[u8],
    order: Endian,
    j: HandlerJudge,
    head: CodeHead,
    from: usize,
    t: u32,
    h: u32,
    k: u32,
) -> Result<KeptCode, Refusal>
    requires { from + 8 * head.tries ≤ length s.now }
    ensures { kept_code_outcome result ≡ parts_stage s.now order j head from t h k }
{
    let attempt = tries_found(s, order, head.units, j.item, from, head.tries, t)?;
    listed_at(s, order, j, head, attempt, from, t, h, k)
}

// What follows the head: its length first, up to the handler list.
fn body_at(
    s: &[u8],
    frame: Frame,
    item: usize,
    head: CodeHead,
    t: u32,
    h: u32,
    k: u32,
) -> Result<KeptCode, Refusal>
    ensures { kept_code_outcome result ≡ body_stage s.now frame item head t h k }
{
    let order = frame.order;
    let body = code_heads::body_size(head);
    let tries = 8 * head.tries as usize;
    if s.len() < item {
        return Err(refusal::runs_past(item));
    }
    if s.len() - item < body {
        return Err(refusal::runs_past(item));
    }
    if s.len() - item - body < tries {
        return Err(refusal::runs_past(item));
    }
    let from = item + body;
    let j = HandlerJudge {
        types: frame.types,
        units: head.units,
        item,
        base: from + tries,
    };
    parts_at(s, order, j, head, from, t, h, k)
}

// The whole, of which try t with its handler's number, and pair k of handler h, are kept.
pub fn kept_at(
    s: &[u8],
    frame: Frame,
    item: usize,
    t: u32,
    h: u32,
    k: u32,
) -> Result<KeptCode, Refusal>
    ensures { kept_code_outcome result ≡ kept_code_at s.now frame item t h k }
{
    let head = code_heads::head_at(s, frame, item)?;
    body_at(s, frame, item, head, t, h, k)
}
