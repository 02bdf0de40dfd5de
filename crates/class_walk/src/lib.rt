// Going over a class with all that lies below it: own rules first, then the items pointed at, in stored order. Shared items are gone over
// each time they are reached.
#![tactic(auto)]

ghost use Rattle.std.specs.Prelude.{◌≡◌};
ghost use Rattle.refusal.specs.Answers.{checked_outcome};
ghost use Rattle.class_walk.specs.Methods.{debug_accepted, body_accepted, method_accepted, methods_pass, both_pass, data_accepted};
ghost use Rattle.class_walk.specs.Classes.{annotations_accepted, members_accepted, statics_accepted, below_pass, first_number, fit_pass, class_accepted};
ghost use Rattle.class_walk.specs.Answers.{passed_outcome};

use class_data::Methods;
use class_members::MemberJudge;
use frame::Frame;
use header::Header;
use refusal::{Read, Refusal};

// The debug information at an offset, if it is not absent.
fn debug_below(s: &[u8], strings: u32, offset: u32) -> Result<(), Refusal>
    ensures { checked_outcome result ≡ debug_accepted s.now strings offset }
{
    if offset <= 0 {
        return Ok(());
    }
    debug_info::debug_at(s, strings, offset as usize)?;
    Ok(())
}

// A code item and its debug information.
fn check_body(s: &[u8], frame: Frame, item: usize) -> Result<(), Refusal>
    ensures { checked_outcome result ≡ body_accepted s.now frame item }
{
    let o = code_item::code_at(s, frame, item)?;
    let head = o.head;
    debug_below(s, frame.strings, head.debug)
}

// The body of a method, if it is not absent.
fn method_below(s: &[u8], frame: Frame, code: u32) -> Result<(), Refusal>
    ensures { checked_outcome result ≡ method_accepted s.now frame code }
{
    if code <= 0 {
        return Ok(());
    }
    check_body(s, frame, code as usize)
}

// A list of methods once more, with the body of each.
fn methods_pass(
    s: &[u8],
    frame: Frame,
    item: usize,
    from: usize,
    count: u32,
) -> Result<usize, Refusal>
    ensures { passed_outcome result ≡ methods_pass s.now frame item from count }
{
    let judge = MemberJudge {
        limit: frame.methods,
        code: true,
        start: frame.start,
    };
    let mut p = from;
    // as `member_found` takes them
    let mut base: u32 = 0;
    let mut later = false;
    for _ in 0..count {
        let Read {
            value: member,
            next,
        } = class_members::member_found(s, judge, item, base, later, p)?;
        method_below(s, frame, member.code)?;
        base = member.index;
        p = next;
        later = true;
    }
    Ok(p)
}

// Direct methods, then virtual ones.
fn both_pass(s: &[u8], frame: Frame, item: usize, m: Methods) -> Result<(), Refusal>
    ensures { checked_outcome result ≡ both_pass s.now frame item m }
{
    let middle = methods_pass(s, frame, item, m.from, m.directs)?;
    methods_pass(s, frame, item, middle, m.virtuals)?;
    Ok(())
}

// Class data with all below it.
fn check_data(s: &[u8], frame: Frame, item: usize) -> Result<(), Refusal>
    ensures { checked_outcome result ≡ data_accepted s.now frame item }
{
    let m = class_data::methods_at(s, frame, item)?;
    both_pass(s, frame, item, m)
}

fn annotations_below(f: &[u8], header: Header, handles: u32, at: u32) -> Result<(), Refusal>
    ensures { checked_outcome result ≡ annotations_accepted f.now header handles at }
{
    if at <= 0 {
        return Ok(());
    }
    annotation_walk::check_directory(
        header::up_to_end(f, header),
        header::frame_of(header, handles),
        at as usize,
    )
}

fn data_below(f: &[u8], header: Header, at: u32) -> Result<(), Refusal>
    ensures { checked_outcome result ≡ members_accepted f.now header at }
{
    if at <= 0 {
        return Ok(());
    }
    check_data(
        header::up_to_end(f, header),
        header::plain_frame(header),
        at as usize,
    )
}

fn values_below(f: &[u8], header: Header, handles: u32, at: u32) -> Result<(), Refusal>
    ensures { checked_outcome result ≡ statics_accepted f.now header handles at }
{
    if at <= 0 {
        return Ok(());
    }
    let place = at as usize;
    let walk = value_heads::walk_of(header::frame_of(header, handles), place);
    encoded_value::top_array(header::up_to_end(f, header), walk, place)?;
    Ok(())
}

// What the four offsets of a class lead to, in stored order but for the static values, which come last.
fn below_pass(
    f: &[u8],
    header: Header,
    handles: u32,
    interfaces: u32,
    directory: u32,
    members: u32,
    values: u32,
) -> Result<(), Refusal>
    ensures { checked_outcome result ≡ below_pass f.now header handles interfaces directory members values }
{
    type_list::check_types(f, header, interfaces)?;
    annotations_below(f, header, handles, directory)?;
    data_below(f, header, members)?;
    values_below(f, header, handles, values)
}

// The number that an item begins with, 0 where the item is absent: of class data how many static fields it has, of an array how many values.
fn first_number(s: &[u8], at: u32) -> u32
    ensures { result ≡ first_number s.now at }
{
    if at <= 0 {
        return 0;
    }
    match leb128::uleb(s, at as usize, at as usize) {
        Err(_) => 0,
        Ok(Read { value, .. }) => value,
    }
}

// No more static values than static fields, of class data and an array that were gone over: 21 at the class record.
fn check_fit(
    f: &[u8],
    header: Header,
    place: usize,
    members: u32,
    values: u32,
) -> Result<(), Refusal>
    ensures { checked_outcome result ≡ fit_pass f.now header place members values }
{
    let s = header::up_to_end(f, header);
    let stored = first_number(s, values);
    let fields = first_number(s, members);
    if stored <= fields {
        return Ok(());
    }
    Err(refusal::too_many_values(place))
}

// Class n with all below it.
pub fn check_class(f: &[u8], header: Header, handles: u32, n: u32) -> Result<(), Refusal>
    ensures { checked_outcome result ≡ class_accepted f.now header handles n }
{
    let t = header.classes;
    let c = class_ids::class_at(f, header::plain_frame(header), header.end, t.offset, n)?;
    below_pass(
        f,
        header,
        handles,
        c.interfaces,
        c.directory,
        c.data,
        c.values,
    )?;
    check_fit(
        f,
        header,
        t.offset as usize + 32 * n as usize,
        c.data,
        c.values,
    )
}
