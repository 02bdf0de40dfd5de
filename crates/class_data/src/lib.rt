// Class data: four counts, then static fields, instance fields, direct methods and virtual methods.
// `s` ends where the data section ends, `item` is the place of the class data.
#![tactic(auto)]

ghost use Rattle.std.specs.Prelude.{◌≡◌};
ghost use Rattle.class_data.specs.Data.{fields_judge, methods_judge, two_numbers_at, counts_at, kept_two, kept_data_at, methods_from, extent_at, methods_at, member_of_list, count_in, member_in};
ghost use Rattle.class_data.specs.Answers.{two_numbers_outcome, counts_outcome, two_outcome, kept_data_outcome, data_outcome, member_outcome, methods_outcome};

use class_members::{Member, MemberJudge};
use frame::Frame;
use refusal::{Read, Refusal};

#[derive(Clone, Copy)]
pub struct Counts {
    pub statics: u32,
    pub instances: u32,
    pub directs: u32,
    pub virtuals: u32,
}

// One member of each list.
#[derive(Clone, Copy)]
pub struct KeptMembers {
    pub statics: Member,
    pub instances: Member,
    pub directs: Member,
    pub virtuals: Member,
}

// Two of one kind, one after the other, and the place after them.
#[derive(Clone, Copy)]
pub struct Two<T> {
    pub first: T,
    pub second: T,
    pub next: usize,
}

// The four counts, one member of each list, where the methods begin, and the place after the item.
#[derive(Clone, Copy)]
pub struct KeptData {
    pub counts: Counts,
    pub members: KeptMembers,
    pub methods: usize,
    pub end: usize,
}

// How many direct and virtual methods there are, and where they begin.
#[derive(Clone, Copy)]
pub struct Methods {
    pub directs: u32,
    pub virtuals: u32,
    pub from: usize,
}

// What fields are read against, and what methods are, which have code.
fn fields_of(frame: Frame) -> MemberJudge
    ensures { result ≡ fields_judge frame }
{
    MemberJudge {
        limit: frame.fields,
        code: false,
        start: frame.start,
    }
}

fn methods_of(frame: Frame) -> MemberJudge
    ensures { result ≡ methods_judge frame }
{
    MemberJudge {
        limit: frame.methods,
        code: true,
        start: frame.start,
    }
}

// Two lists of one kind, one after the other.
fn two_at(
    s: &[u8],
    j: MemberJudge,
    item: usize,
    from: usize,
    m: u32,
    n: u32,
    k: u32,
) -> Result<Two<Member>, Refusal>
    ensures { two_outcome result ≡ kept_two s.now j item from m n k }
{
    let Read {
        value: first,
        next: middle,
    } = class_members::members_at(s, j, item, from, m, k)?;
    let Read {
        value: second,
        next,
    } = class_members::members_at(s, j, item, middle, n, k)?;
    Ok(Two {
        first,
        second,
        next,
    })
}

// Two numbers, one after the other.
fn pair_at(s: &[u8], item: usize, at: usize) -> Result<Two<u32>, Refusal>
    ensures { two_numbers_outcome result ≡ two_numbers_at s.now item at }
{
    let Read {
        value: first,
        next: middle,
    } = leb128::uleb(s, at, item)?;
    let Read {
        value: second,
        next,
    } = leb128::uleb(s, middle, item)?;
    Ok(Two {
        first,
        second,
        next,
    })
}

// The four counts.
pub fn counts_at(s: &[u8], item: usize) -> Result<Read<Counts>, Refusal>
    ensures { counts_outcome result ≡ counts_at s.now item }
{
    let Two {
        first: statics,
        second: instances,
        next: middle,
    } = pair_at(s, item, item)?;
    let Two {
        first: directs,
        second: virtuals,
        next,
    } = pair_at(s, item, middle)?;
    Ok(Read {
        value: Counts {
            statics,
            instances,
            directs,
            virtuals,
        },
        next,
    })
}

// The whole, of which member k of each list is kept.
fn kept_at(s: &[u8], frame: Frame, item: usize, k: u32) -> Result<KeptData, Refusal>
    ensures { kept_data_outcome result ≡ kept_data_at s.now frame item k }
{
    let Read {
        value: counts,
        next,
    } = counts_at(s, item)?;
    let Two {
        first: statics,
        second: instances,
        next: middle,
    } = two_at(
        s,
        fields_of(frame),
        item,
        next,
        counts.statics,
        counts.instances,
        k,
    )?;
    let methods = methods_of(frame);
    let Two {
        first: directs,
        second: virtuals,
        next: end,
    } = two_at(s, methods, item, middle, counts.directs, counts.virtuals, k)?;
    Ok(KeptData {
        counts,
        members: KeptMembers {
            statics,
            instances,
            directs,
            virtuals,
        },
        methods: middle,
        end,
    })
}

// The class data at a place.
pub fn class_data_at(s: &[u8], frame: Frame, item: usize) -> Result<Read<Counts>, Refusal>
    ensures { data_outcome result ≡ extent_at s.now frame item }
{
    let KeptData { counts, end, .. } = kept_at(s, frame, item, 0)?;
    Ok(Read {
        value: counts,
        next: end,
    })
}

// The two lists of methods, which begin at `from`: only that they obey their rules is kept, and where they are.
fn methods_from(
    s: &[u8],
    frame: Frame,
    item: usize,
    counts: Counts,
    from: usize,
) -> Result<Methods, Refusal>
    ensures { methods_outcome result ≡ methods_from s.now frame item counts from }
{
    two_at(
        s,
        methods_of(frame),
        item,
        from,
        counts.directs,
        counts.virtuals,
        0,
    )?;
    Ok(Methods {
        directs: counts.directs,
        virtuals: counts.virtuals,
        from,
    })
}

// How many methods either list has, and where they begin: for going over them once more. The check asks for nothing else, and the answer of `kept_at`, with its
// four members, would be copied for each class.
pub fn methods_at(s: &[u8], frame: Frame, item: usize) -> Result<Methods, Refusal>
    ensures { methods_outcome result ≡ methods_at s.now frame item }
{
    let Read {
        value: counts,
        next,
    } = counts_at(s, item)?;
    let Two { next: from, .. } = two_at(
        s,
        fields_of(frame),
        item,
        next,
        counts.statics,
        counts.instances,
        0,
    )?;
    methods_from(s, frame, item, counts, from)
}

// How many members a list has: 0 static fields, 1 instance fields, 2 direct methods, 3 virtual methods.
// A list stays a number: C and the readers' callers ask by it, and the contract answers for every number, also one that names no list.
fn count_in(list: u32, c: Counts) -> u32
    ensures { result ≡ count_in list c }
{
    match list {
        0 => c.statics,
        1 => c.instances,
        2 => c.directs,
        3 => c.virtuals,
        _ => 0,
    }
}

// The member that is kept of a list.
fn member_in(list: u32, m: KeptMembers) -> Member
    ensures { result ≡ member_in list m }
{
    match list {
        0 => m.statics,
        1 => m.instances,
        2 => m.directs,
        3 => m.virtuals,
        _ => Member {
            index: 0,
            flags: 0,
            code: 0,
        },
    }
}

// Member k of a list.
pub fn member_at(s: &[u8], frame: Frame, item: usize, list: u32, k: u32) -> Result<Member, Refusal>
    ensures { member_outcome result ≡ member_of_list s.now frame item list k }
{
    let KeptData {
        counts,
        members,
        ..
    } = kept_at(s, frame, item, k)?;
    let count = count_in(list, counts);
    if k < count {
        return Ok(member_in(list, members));
    }
    Err(refusal::not_there())
}
