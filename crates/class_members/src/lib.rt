// The members of one list of class data: fields or methods, each with the difference to the one before.
// `s` ends where the data section ends, `item` is the place of the class data.
#![tactic(auto)]

ghost use Rattle.std.specs.Prelude.{◌≡◌};
ghost use Rattle.leb128.specs.Answers.{leb_outcome};
ghost use Rattle.class_members.specs.Members.{apart, offset_at, code_at, rest_at, member_at, kept_members};
ghost use Rattle.class_members.specs.Answers.{found_outcome};

use refusal::{Read, Refusal};

// A field or method: its number, its access flags, and the offset of its code, 0 for a field.
#[derive(Clone, Copy)]
pub struct Member {
    pub index: u32,
    pub flags: u32,
    pub code: u32,
}

// What the members of a list are judged by: how many there are to name, and whether a code offset follows.
#[derive(Clone, Copy)]
pub struct MemberJudge {
    pub limit: u32,
    pub code: bool,
    pub start: usize,
}

// A later difference of 0 repeats a member.
fn is_apart(later: bool, difference: u32) -> bool
    ensures { result ≡ apart later difference }
{
    if later {
        return 0 < difference;
    }
    true
}

// A code offset: 0, or a multiple of 4 in the data section.
fn offset_at(s: &[u8], start: usize, item: usize, at: usize) -> Result<Read<u32>, Refusal>
    ensures { leb_outcome result ≡ offset_at s.now start item at }
{
    let Read { value, next } = leb128::uleb(s, at, item)?;
    if frame::is_allowed_or_absent(start, s.len(), true, value as usize) {
        return Ok(Read { value, next });
    }
    Err(refusal::wrong_offset(item))
}

// The code offset of a method; a field has none.
fn code_at(s: &[u8], code: bool, start: usize, item: usize, at: usize) -> Result<Read<u32>, Refusal>
    ensures { leb_outcome result ≡ code_at s.now code start item at }
{
    if code {
        return offset_at(s, start, item, at);
    }
    Ok(Read { value: 0, next: at })
}

// What follows a member's difference.
fn rest_at(
    s: &[u8],
    j: MemberJudge,
    item: usize,
    index: u32,
    at: usize,
) -> Result<Read<Member>, Refusal>
    ensures { found_outcome result ≡ rest_at s.now j item index at }
{
    let Read { value: flags, next } = leb128::uleb(s, at, item)?;
    let Read {
        value: code,
        next: after,
    } = code_at(s, j.code, j.start, item, next)?;
    Ok(Read {
        value: Member { index, flags, code },
        next: after,
    })
}

// A member, after one whose index is `base`, or as the first of its list: two parameters, as `member_at` of specs/Members takes them, of which `Exact` is proved.
pub fn member_found(
    s: &[u8],
    j: MemberJudge,
    item: usize,
    base: u32,
    later: bool,
    at: usize,
) -> Result<Read<Member>, Refusal>
    ensures { found_outcome result ≡ member_at s.now j item base later at }
{
    let Read { value, next } = leb128::uleb(s, at, item)?;
    if is_apart(later, value) {
        let index = base as u64 + value as u64;
        if index < j.limit as u64 {
            return rest_at(s, j, item, index as u32, next);
        }
        return Err(refusal::wrong_index(item));
    }
    Err(refusal::out_of_order(item))
}

// All members of a list, of which number k is kept, as three numbers: kept whole, it would be copied for each member of the list.
pub fn members_at(
    s: &[u8],
    j: MemberJudge,
    item: usize,
    from: usize,
    count: u32,
    k: u32,
) -> Result<Read<Member>, Refusal>
    ensures { found_outcome result ≡ kept_members s.now j item from count k }
{
    let mut p = from;
    let mut base: u32 = 0;
    let mut later = false;
    let mut index: u32 = 0;
    let mut flags: u32 = 0;
    let mut code: u32 = 0;
    for i in 0..count {
        let Read {
            value: member,
            next,
        } = member_found(s, j, item, base, later, p)?;
        index = refusal::newer(i == k, member.index, index);
        flags = refusal::newer(i == k, member.flags, flags);
        code = refusal::newer(i == k, member.code, code);
        base = member.index;
        p = next;
        later = true;
    }
    Ok(Read {
        value: Member { index, flags, code },
        next: p,
    })
}
