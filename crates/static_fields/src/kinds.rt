// The first static field whose value has the wrong kind. Class data and values are gone over whole; then once more side by side, up to the last value.
ghost use Rattle.std.specs.Prelude.{◌≡◌};
ghost use Rattle.header.specs.Header.{plain_frame};
ghost use Rattle.class_members.specs.Members.{begin};
ghost use Rattle.class_data.specs.Data.{fields_judge};
ghost use Rattle.value_readers.specs.Opening.{walk_in};
ghost use Rattle.static_fields.specs.Pairing.{wrong_under, wrong_in, wrong_kind};
ghost use Rattle.static_fields.specs.Stages.{fields_begin, values_begin, fields_from, values_from, kind_at, fits_at, wrong_from};
ghost use Rattle.static_fields.specs.Answers.{maybe_wrong, begin_outcome, kind_outcome, fits_next_outcome};

use super::WrongKind;
use class_members::MemberJudge;
use encoded_value::DEEPEST_VALUE;
use frame::Frame;
use header::Header;
use refusal::{Read, Refusal};
use value_heads::Walk;

// How many static fields class data has, and where they begin: the whole first.
fn fields_begin(s: &[u8], frame: Frame, item: usize) -> Result<Read<u32>, Refusal>
    ensures { begin_outcome result ≡ fields_begin s.now frame item }
{
    class_data::class_data_at(s, frame, item)?;
    let Read {
        value: counts,
        next,
    } = class_data::counts_at(s, item)?;
    Ok(Read {
        value: counts.statics,
        next,
    })
}

// The same of an array and its values.
fn values_begin(s: &[u8], w: Walk, item: usize) -> Result<Read<u32>, Refusal>
    ensures { begin_outcome result ≡ values_begin s.now w item }
{
    let count = value_bodies::array_count(s, w, item)?;
    let Read { next, .. } = leb128::uleb(s, item, item)?;
    Ok(Read { value: count, next })
}

// What the values of an item are gone over with.
fn walk_in(header: Header, handles: u32, item: usize) -> Walk
    ensures { result ≡ walk_in header handles item }
{
    value_heads::walk_of(header::frame_of(header, handles), item)
}

// None where class data is absent.
fn fields_from(f: &[u8], header: Header, at: u32) -> Result<Read<u32>, Refusal>
    ensures { begin_outcome result ≡ fields_from f.now header at }
{
    let place = at as usize;
    if 0 < at {
        let s = header::up_to_end(f, header);
        return fields_begin(s, header::plain_frame(header), place);
    }
    Ok(Read { value: 0, next: 0 })
}

fn values_from(f: &[u8], header: Header, handles: u32, at: u32) -> Result<Read<u32>, Refusal>
    ensures { begin_outcome result ≡ values_from f.now header handles at }
{
    let place = at as usize;
    if 0 < at {
        let s = header::up_to_end(f, header);
        return values_begin(s, walk_in(header, handles, place), place);
    }
    Ok(Read { value: 0, next: 0 })
}

// What the static fields of class data are judged by.
fn fields_judge(header: Header) -> MemberJudge
    ensures { result ≡ fields_judge (plain_frame header) }
{
    let fields = header.fields;
    MemberJudge {
        limit: fields.count,
        code: false,
        start: header.start,
    }
}

// The kind of the value at a place, and the place after it.
fn kind_at(s: &[u8], w: Walk, at: usize) -> Result<Read<u8>, Refusal>
    ensures { kind_outcome result ≡ kind_at s.now w at }
{
    let head = value_heads::head_at(s, w.item, at)?;
    let next = encoded_value::value(s, w, at, DEEPEST_VALUE)?;
    Ok(Read {
        value: head % 32,
        next,
    })
}

// Does the value at a place fit field n.
fn fits_at(
    f: &[u8],
    header: Header,
    handles: u32,
    values: u32,
    at: usize,
    n: u32,
) -> Result<Read<bool>, Refusal>
    ensures { fits_next_outcome result ≡ fits_at f.now header handles values at n }
{
    let s = header::up_to_end(f, header);
    let w = walk_in(header, handles, values as usize);
    let Read { value: kind, next } = kind_at(s, w, at)?;
    let fits = super::texts::fits_in(f, header, n, kind)?;
    Ok(Read { value: fits, next })
}

// Fields and values once more, side by side: the first value that does not fit its field.
fn wrong_from(
    f: &[u8],
    header: Header,
    handles: u32,
    data: u32,
    values: u32,
    from: usize,
    first: usize,
    count: u32,
) -> Result<Option<WrongKind>, Refusal>
    ensures { maybe_wrong result ≡ wrong_from f.now header handles «data» values count (begin from) first 0 }
{
    let s = header::up_to_end(f, header);
    let judge = fields_judge(header);
    let mut p = from;
    // as `member_found` takes them
    let mut base: u32 = 0;
    let mut later = false;
    let mut q = first;
    for k in 0..count {
        let Read {
            value: member,
            next,
        } = class_members::member_found(s, judge, data as usize, base, later, p)?;
        let Read {
            value: fits,
            next: after,
        } = fits_at(f, header, handles, values, q, member.index)?;
        if !fits {
            return Ok(Some(WrongKind {
                k,
                field: member.index,
            }));
        }
        base = member.index;
        later = true;
        p = next;
        q = after;
    }
    Ok(None)
}

// Class data and static values whole, 21, and then both once more.
fn wrong_under(
    f: &[u8],
    header: Header,
    handles: u32,
    c: u32,
    data: u32,
    values: u32,
) -> Result<Option<WrongKind>, Refusal>
    ensures { maybe_wrong result ≡ wrong_under f.now header handles c «data» values }
{
    let Read {
        value: fields,
        next: from,
    } = fields_from(f, header, data)?;
    let Read {
        value: count,
        next: first,
    } = values_from(f, header, handles, values)?;
    if count <= fields {
        return wrong_from(f, header, handles, data, values, from, first, count);
    }
    Err(refusal::too_many_values(super::pairs::class_place(header, c)))
}

fn wrong_in(f: &[u8], header: Header, handles: u32, c: u32) -> Result<Option<WrongKind>, Refusal>
    ensures { maybe_wrong result ≡ wrong_in f.now c header handles }
{
    let found = table_readers::class_in(f, header, c)?;
    wrong_under(f, header, handles, c, found.data, found.values)
}

// The first static field of class c whose value has the wrong kind.
pub fn wrong_kind(f: &[u8], c: u32) -> Result<Option<WrongKind>, Refusal>
    ensures { maybe_wrong result ≡ wrong_kind f.now c }
{
    let o = table_readers::open(f)?;
    let header = o.header;
    wrong_in(f, header, o.handles, c)
}
