// The text of a field's type: what it calls for, and what fits it.
ghost use Rattle.std.specs.Prelude.{◌≡◌};
ghost use Rattle.ids.specs.Answers.{index_outcome};
ghost use Rattle.text.specs.Answers.{text_outcome};
ghost use Rattle.value_bodies.specs.Answers.{picked_outcome};
ghost use Rattle.static_fields.specs.Pairing.{default_of, fits_of, type_string, type_text};
ghost use Rattle.static_fields.specs.Stages.{type_extent};
ghost use Rattle.static_fields.specs.Answers.{fits_outcome};

use decoded_value::Value;
use header::Header;
use refusal::Refusal;
use text::TextPlace;

// The string that is the type of field n: the field's record, then the type's.
fn type_string(f: &[u8], header: Header, n: u32) -> Result<u32, Refusal>
    ensures { index_outcome result ≡ type_string f.now header n }
{
    let types = header.types;
    let fields = header.fields;
    let frame = header::plain_frame(header);
    let m = ids::member_at(f, frame, types.count, fields.offset, n)?;
    ids::type_at(f, frame, types.offset, m.kind)
}

// Where its text lies.
fn type_text(f: &[u8], header: Header, n: u32) -> Result<TextPlace, Refusal>
    ensures { text_outcome result ≡ type_extent f.now header n }
{
    let t = type_string(f, header, n)?;
    string_ids::string_at(f, header, t)
}

// The zero, false or null of field n.
pub fn default_in(f: &[u8], header: Header, n: u32) -> Result<Value, Refusal>
    ensures { picked_outcome result ≡ default_of (type_text f.now header) n }
{
    let TextPlace { start, length, .. } = type_text(f, header, n)?;
    let s = header::up_to_end(f, header);
    Ok(static_kinds::default_of(word::bytes_at(s, start, length)))
}

// May field n have a value of this kind.
pub fn fits_in(f: &[u8], header: Header, n: u32, kind: u8) -> Result<bool, Refusal>
    ensures { fits_outcome result ≡ fits_of (type_text f.now header) n kind }
{
    let TextPlace { start, length, .. } = type_text(f, header, n)?;
    let s = header::up_to_end(f, header);
    Ok(static_kinds::is_fitting(word::bytes_at(s, start, length), kind))
}
