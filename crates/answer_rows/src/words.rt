// Answers as rows of twenty words.
ghost use Rattle.std.specs.Prelude.{◌≡◌, [], ◌∷◌};
ghost use Rattle.decoded_value.specs.Shown.{value_shown};
ghost use Rattle.static_fields.specs.Answers.{as_field};
ghost use Rattle.answer_rows.specs.Words.{row, refusal_row, bits_of, named_words, static_words};

use decoded_value::Value;
use refusal::Refusal;

pub fn refused(r: Refusal) -> [u64; 20]
    ensures { result ≡ refusal_row r }
{
    [
        2,
        r.number as u64,
        r.place as u64,
        0,
        0,
        0,
        0,
        0,
        0,
        0,
        0,
        0,
        0,
        0,
        0,
        0,
        0,
        0,
        0,
        0,
    ]
}

pub fn absent() -> [u64; 20]
    ensures { result ≡ row (1 ∷ []) }
{
    [1, 0, 0, 0, 0, 0, 0, 0, 0, 0, 0, 0, 0, 0, 0, 0, 0, 0, 0, 0]
}

pub fn one(w: u32) -> [u64; 20]
    ensures { result ≡ row (0 ∷ w ∷ []) }
{
    [
        0, w as u64, 0, 0, 0, 0, 0, 0, 0, 0, 0, 0, 0, 0, 0, 0, 0, 0, 0, 0,
    ]
}

pub fn four(w: u64, x: u64, y: u64, z: u64) -> [u64; 20]
    ensures { result ≡ row (0 ∷ w ∷ x ∷ y ∷ z ∷ []) }
{
    [0, w, x, y, z, 0, 0, 0, 0, 0, 0, 0, 0, 0, 0, 0, 0, 0, 0, 0]
}

// Two's complement.
fn bits(z: i64) -> u64
    ensures { result ≡ bits_of z }
{
    z.cast_unsigned()
}

// A value, and behind it the name of the element that it is the value of.
pub fn value(v: Value, name: u32) -> [u64; 20]
    ensures { result ≡ row (0 ∷ named_words (value_shown v) name) }
{
    match v {
        Value::Byte(z) => four(0, bits(z as i64), 0, name as u64),
        Value::Short(z) => four(2, bits(z as i64), 0, name as u64),
        Value::Char(n) => four(3, n as u64, 0, name as u64),
        Value::Int(z) => four(4, bits(z as i64), 0, name as u64),
        Value::Long(z) => four(6, bits(z), 0, name as u64),
        Value::Float { bits, value: _ } => four(16, bits as u64, 0, name as u64),
        Value::Double { bits, value: _ } => four(17, bits, 0, name as u64),
        Value::Index { kind, number } => four(kind as u64, number as u64, 0, name as u64),
        Value::Array { offset, length } => four(0x1c, offset as u64, length as u64, name as u64),
        Value::Annotation { offset, length } => four(
            0x1d,
            offset as u64,
            length as u64,
            name as u64,
        ),
        Value::Null => four(30, 0, 0, name as u64),
        Value::Boolean(b) => four(31, b as u64, 0, name as u64),
    }
}

// A value, and behind it the static field whose value it is: its number, its flags, and whether the value is stored.
pub fn paired(v: Value, field: u32, flags: u32, stored: bool) -> [u64; 20]
    ensures { result ≡ row (0 ∷ static_words (as_field field flags stored (value_shown v))) }
{
    let mut row = value(v, field);
    row[5] = flags as u64;
    row[6] = stored as u64;
    row
}
