// A static field with its value.
ghost use Rattle.std.specs.Prelude.{◌≡◌, ◌<◌};
ghost use Rattle.refusal.specs.Outcome.{present};
ghost use Rattle.static_fields.specs.Pairing.{class_place, field_under, field_in, static_field};
ghost use Rattle.static_fields.specs.Stages.{pair_of, field_some};
ghost use Rattle.static_fields.specs.Answers.{maybe_field};

use super::StaticField;
use header::Header;
use refusal::{Read, Refusal};

// Where the record of class c is.
pub fn class_place(header: Header, c: u32) -> usize
    ensures { result ≡ class_place header c }
{
    let classes = header.classes;
    classes.offset as usize + 32 * c as usize
}

// Static field k where so many values are stored: value k, or past the list what the text of the field's type calls for.
fn pair_of(
    f: &[u8],
    header: Header,
    handles: u32,
    data: u32,
    values: u32,
    k: u32,
    count: u32,
) -> Result<Option<StaticField>, Refusal>
    ensures { maybe_field result ≡ pair_of f.now header handles «data» values k count }
{
    let s = header::up_to_end(f, header);
    let frame = header::plain_frame(header);
    let m = class_data::member_at(s, frame, data as usize, 0, k)?;
    let stored = k < count;
    let value = if stored {
        value_readers::value_in(f, header, handles, values, k)?
    } else {
        super::texts::default_in(f, header, m.index)?
    };
    Ok(Some(StaticField {
        field: m.index,
        flags: m.flags,
        stored,
        value,
    }))
}

// Class data whole, 7 for the field, static values whole, 21, and then the pair.
fn field_some(
    f: &[u8],
    header: Header,
    handles: u32,
    c: u32,
    k: u32,
    data: u32,
    values: u32,
) -> Result<Option<StaticField>, Refusal>
    requires { 0 < «data» }
    ensures { maybe_field result ≡ field_some f.now header handles c k «data» values }
{
    let s = header::up_to_end(f, header);
    let frame = header::plain_frame(header);
    let Read { value: counts, .. } = class_data::class_data_at(s, frame, data as usize)?;
    let fields = counts.statics;
    if fields <= k {
        return Err(refusal::not_there());
    }
    let count = value_readers::values_in(f, header, handles, values)?;
    if count <= fields {
        return pair_of(f, header, handles, data, values, k, count);
    }
    Err(refusal::too_many_values(class_place(header, c)))
}

// A class without class data has none.
fn field_below(
    f: &[u8],
    header: Header,
    handles: u32,
    c: u32,
    k: u32,
    data: u32,
    values: u32,
) -> Result<Option<StaticField>, Refusal>
    ensures { maybe_field result ≡ present «data» (field_under f.now header handles c k «data» values) }
{
    if data <= 0 {
        return Ok(None);
    }
    field_some(f, header, handles, c, k, data, values)
}

fn field_in(
    f: &[u8],
    header: Header,
    handles: u32,
    c: u32,
    k: u32,
) -> Result<Option<StaticField>, Refusal>
    ensures { maybe_field result ≡ field_in f.now c k header handles }
{
    let found = table_readers::class_in(f, header, c)?;
    field_below(f, header, handles, c, k, found.data, found.values)
}

// Static field k of class c, with its value.
pub fn static_field(f: &[u8], c: u32, k: u32) -> Result<Option<StaticField>, Refusal>
    ensures { maybe_field result ≡ static_field f.now c k }
{
    let o = table_readers::open(f)?;
    let header = o.header;
    field_in(f, header, o.handles, c, k)
}
