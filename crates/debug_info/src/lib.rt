// Debug information: a starting line, parameter names, and a line program.
// `s` ends where the data section ends, `item` is the place of the debug information.
#![tactic(auto)]

ghost use Rattle.std.specs.Prelude.{◌≡◌};
ghost use Rattle.debug_info.specs.Debug.{name_at, kept_names, zero_at, body_at, kept_debug_at, extent_at, name_of};
ghost use Rattle.debug_info.specs.Answers.{name_found_outcome, zero_outcome, kept_debug_outcome, debug_outcome, name_outcome};

use refusal::{Read, Refusal};

// The whole, with one name kept.
#[derive(Clone, Copy)]
pub struct KeptDebug {
    pub line: u32,
    pub names: u32,
    pub name: Option<u32>,
    pub start: usize,
    pub length: usize,
}

// The starting line, how many names, and where the line program lies, without its zero byte.
#[derive(Clone, Copy)]
pub struct DebugOutline {
    pub line: u32,
    pub names: u32,
    pub start: usize,
    pub length: usize,
}

// A name where it stands, a plus-one number: 11 where it is a string that is not there. The number is looked at before it is made an Option: that of `uleb_p1`,
// taken apart at once, cost a third more time on a long list of names (docs/LOOK-BACK.md).
fn name_found(s: &[u8], strings: u32, item: usize, at: usize) -> Result<Read<Option<u32>>, Refusal>
    ensures { name_found_outcome result ≡ name_at s.now strings item at }
{
    let n = leb128::uleb(s, at, item)?;
    if n.value <= 0 {
        return Ok(Read {
            value: None,
            next: n.next,
        });
    }
    if n.value <= strings {
        return Ok(Read {
            value: Some(n.value - 1),
            next: n.next,
        });
    }
    Err(refusal::wrong_index(item))
}

// All names, of which number k is kept.
fn names_at(
    s: &[u8],
    strings: u32,
    item: usize,
    from: usize,
    count: u32,
    k: u32,
) -> Result<Read<Option<u32>>, Refusal>
    ensures { name_found_outcome result ≡ kept_names s.now strings item from count k }
{
    let mut p = from;
    let mut kept = None;
    for i in 0..count {
        let Read { value: name, next } = name_found(s, strings, item, p)?;
        kept = refusal::newer(i == k, name, kept);
        p = next;
    }
    Ok(Read {
        value: kept,
        next: p,
    })
}

// The first zero byte from `start` on.
fn zero_at(s: &[u8], item: usize, start: usize) -> Result<usize, Refusal>
    ensures { zero_outcome result ≡ zero_at s.now item start }
{
    for p in start..s.len() {
        if s[p] == 0 {
            return Ok(p);
        }
    }
    Err(refusal::runs_past(item))
}

// The names and the line program.
fn body_at(
    s: &[u8],
    strings: u32,
    item: usize,
    line: u32,
    from: usize,
    count: u32,
    k: u32,
) -> Result<KeptDebug, Refusal>
    ensures { kept_debug_outcome result ≡ body_at s.now strings item line from count k }
{
    let Read { value: name, next } = names_at(s, strings, item, from, count, k)?;
    let zero = zero_at(s, item, next)?;
    Ok(KeptDebug {
        line,
        names: count,
        name,
        start: next,
        length: zero - next,
    })
}

// The whole, of which name k is kept.
fn kept_at(s: &[u8], strings: u32, item: usize, k: u32) -> Result<KeptDebug, Refusal>
    ensures { kept_debug_outcome result ≡ kept_debug_at s.now strings item k }
{
    let Read { value: line, next } = leb128::uleb(s, item, item)?;
    let Read {
        value: count,
        next: from,
    } = leb128::uleb(s, next, item)?;
    body_at(s, strings, item, line, from, count, k)
}

// The debug information at a place.
pub fn debug_at(s: &[u8], strings: u32, item: usize) -> Result<DebugOutline, Refusal>
    ensures { debug_outcome result ≡ extent_at s.now strings item }
{
    let KeptDebug {
        line,
        names,
        start,
        length,
        ..
    } = kept_at(s, strings, item, 0)?;
    Ok(DebugOutline {
        line,
        names,
        start,
        length,
    })
}

// Name k of the debug information at a place.
pub fn name_at(s: &[u8], strings: u32, item: usize, k: u32) -> Result<Option<u32>, Refusal>
    ensures { name_outcome result ≡ name_of s.now strings item k }
{
    let KeptDebug { names, name, .. } = kept_at(s, strings, item, k)?;
    if k < names {
        return Ok(name);
    }
    Err(refusal::not_there())
}
