// Class data, and its members by list and number.
ghost use Rattle.std.specs.Prelude.{◌≡◌, length};
ghost use Rattle.class_readers.specs.Members.{counts_under, class_data, member_under, member_number, member_flags, member_content};
ghost use Rattle.class_readers.specs.Answers.{maybe_data, maybe_member, maybe_count};

use super::Spot;
use class_data::Counts;
use class_members::Member;
use refusal::{Read, Refusal};

fn counts_under(f: &[u8], spot: Spot) -> Result<Option<Counts>, Refusal>
    ensures { maybe_data result ≡ counts_under f.now spot }
{
    let header = spot.header;
    let Read { value: counts, .. } = class_data::class_data_at(
        header::up_to_end(f, header),
        header::plain_frame(header),
        spot.place as usize,
    )?;
    Ok(Some(counts))
}

// How many members the four lists of class c have.
pub fn class_data(f: &[u8], c: u32) -> Result<Option<Counts>, Refusal>
    ensures { maybe_data result ≡ class_data f.now c }
{
    let Some(spot) = super::spots::data_spot(f, c)? else {
        return Ok(None);
    };
    counts_under(f, spot)
}

fn member_under(f: &[u8], spot: Spot, list: u32, k: u32) -> Result<Option<Member>, Refusal>
    ensures { maybe_member result ≡ member_under f.now list k spot }
{
    let header = spot.header;
    let m = class_data::member_at(
        header::up_to_end(f, header),
        header::plain_frame(header),
        spot.place as usize,
        list,
        k,
    )?;
    Ok(Some(m))
}

// Member k of a list of class c: its index, its access flags, and the offset of its code, 0 for a field.
pub fn member(f: &[u8], c: u32, list: u32, k: u32) -> Result<Option<Member>, Refusal>
    ensures { maybe_member result ≡ member_number f.now c list k }
{
    let Some(data) = super::spots::data_spot(f, c)? else {
        return Ok(None);
    };
    member_under(f, data, list, k)
}

// Its access flags as bit numbers in a lent output: how many; 19, writing nothing, where the output is shorter.
pub fn member_flags(
    f: &[u8],
    c: u32,
    list: u32,
    k: u32,
    out: &mut [u8],
) -> Result<Option<usize>, Refusal>
    ensures answer { maybe_count result ≡ member_flags f.now c list k (length out.old) }
    ensures content { out.new ≡ member_content f.now c list k out.old }
{
    let Some(m) = member(f, c, list, k)? else {
        return Ok(None);
    };
    let n = access_flags::flags_into(m.flags, false, out)?;
    Ok(Some(n))
}
