// What the text of a static field's type says of the field's value: which kind it takes, and what stands where no value is stored.
#![tactic(auto)]

ghost use Rattle.std.specs.Prelude.{◌≡◌, [], ◌∷◌};
ghost use Rattle.decoded_value.specs.Shown.{value_shown};
ghost use Rattle.static_kinds.specs.Kinds.{kind_called, default, suits, fits, unset_by};

use decoded_value::Value;

// The kind that a text of one letter takes, null's for any other.
// Kinds stay the numbers of document 01's table: the C interface hands them out, and `shown` in specs says them.
fn letter_kind(letter: u8) -> u8
    ensures { result ≡ kind_called (letter ∷ []) }
{
    match letter {
        0x5a => 0x1f,
        0x42 => 0x00,
        0x53 => 0x02,
        0x43 => 0x03,
        0x49 => 0x04,
        0x4a => 0x06,
        0x46 => 0x10,
        0x44 => 0x11,
        _ => 0x1e,
    }
}

// The kind that a text takes: texts are compared whole.
pub fn kind_called(text: &[u8]) -> u8
    ensures { result ≡ kind_called text.now }
{
    if text.len() == 1 {
        return letter_kind(text[0]);
    }
    0x1e
}

// The zero, false or null of a kind that is called for.
fn unset_by(kind: u8) -> Value
    ensures { value_shown result ≡ unset_by kind }
{
    match kind {
        0x1f => Value::Boolean(false),
        0x00 => Value::Byte(0),
        0x02 => Value::Short(0),
        0x03 => Value::Char(0),
        0x04 => Value::Int(0),
        0x06 => Value::Long(0),
        0x10 => Value::Float {
            bits: 0,
            value: 0.0,
        },
        0x11 => Value::Double {
            bits: 0,
            value: 0.0,
        },
        _ => Value::Null,
    }
}

// The value of a static field of this type for which none is stored.
pub fn default_of(text: &[u8]) -> Value
    ensures { value_shown result ≡ default text.now }
{
    unset_by(kind_called(text))
}

// May a value of this kind stand where that kind is called for.
fn is_suited(called: u8, kind: u8) -> bool
    ensures { result ≡ suits called kind }
{
    match called {
        0x1e => matches!(kind, 0x15..=0x1e),
        _ => kind == called,
    }
}

// May a static field of this type have a value of this kind.
pub fn is_fitting(text: &[u8], kind: u8) -> bool
    ensures { result ≡ fits text.now kind }
{
    is_suited(kind_called(text), kind)
}
