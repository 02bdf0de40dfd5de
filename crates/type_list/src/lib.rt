// Lists of types: the parameters of a proto and the interfaces of a class. `s` ends where the data section ends.
#![tactic(auto)]

ghost use Rattle.std.specs.Prelude.{◌≡◌, ◌+◌, ◌*◌, ◌≤◌, length};
ghost use Rattle.type_list.specs.TypeList.{entry_number, all_at, count_at, number_at};
ghost use Rattle.type_list.specs.Below.{list_count, types_accepted};
ghost use Rattle.type_list.specs.Answers.{count_outcome, type_outcome};
ghost use Rattle.refusal.specs.Answers.{checked_outcome};

use header::Header;
use refusal::Refusal;
use word::Endian;

// What a list is read against: the byte order, how many types there are, and the list's own place.
#[derive(Clone, Copy)]
pub struct TypeListJudge {
    pub order: Endian,
    pub types: u32,
    pub at: usize,
}

// Entry k of the list.
fn entry_number(s: &[u8], j: TypeListJudge, k: u32) -> u32
    ensures { result ≡ entry_number s.now j k }
{
    if s.len() <= j.at {
        return 0;
    }
    word::u16_at(s, j.at + 4 + 2 * k as usize, j.order) as u32
}

// All entries in turn.
fn all(s: &[u8], j: TypeListJudge, count: u32) -> Result<(), Refusal>
    ensures { checked_outcome result ≡ all_at s.now j count }
{
    for k in 0..count {
        let t = entry_number(s, j, k);
        if j.types <= t {
            return Err(refusal::wrong_index(j.at));
        }
    }
    Ok(())
}

// How many entries a list has that obeys its rules: its length first, then its entries.
fn count_at(s: &[u8], j: TypeListJudge) -> Result<u32, Refusal>
    ensures { count_outcome result ≡ count_at s.now j }
{
    let count = frame::counted(s, j.order, j.at, 2)?;
    all(s, j, count)?;
    Ok(count)
}

// Entry k of a list that obeys its rules.
pub fn type_at(s: &[u8], j: TypeListJudge, k: u32) -> Result<u32, Refusal>
    ensures { type_outcome result ≡ number_at s.now j k }
{
    let count = count_at(s, j)?;
    if k < count {
        return Ok(entry_number(s, j, k));
    }
    Err(refusal::not_there())
}

// How many types the list at an offset has, 0 where it is absent.
pub fn list_count(f: &[u8], header: Header, at: u32) -> Result<u32, Refusal>
    ensures { count_outcome result ≡ list_count f.now header at }
{
    if 0 < at {
        return count_at(
            header::up_to_end(f, header),
            TypeListJudge {
                order: header.order,
                types: header.types.count,
                at: at as usize,
            },
        );
    }
    Ok(0)
}

// The list of types at an offset, if it is not absent.
pub fn check_types(f: &[u8], header: Header, at: u32) -> Result<(), Refusal>
    ensures { checked_outcome result ≡ types_accepted f.now header at }
{
    list_count(f, header, at)?;
    Ok(())
}
