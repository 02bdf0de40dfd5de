// One value read out: a kind with its number, floats included, or a nested body's offset and length in bytes. No recursion: a nested
// body is only gone over.
#![tactic(auto)]

ghost use Rattle.std.specs.Prelude.{◌≡◌, ◌+◌, ◌*◌, ◌^◌, ◌%◌, ◌/◌, ◌≤◌, ◌<◌, length, pos, negsuc};
ghost use Rattle.std.specs.Float.Ieee.{of_bits};
ghost use Rattle.std.specs.Float.{binary32, binary64};
ghost use Rattle.value_heads.specs.Numbers.{signed, raised};
ghost use Rattle.encoded_value.specs.Tree.{byte, short, int, long, float, double, rest_of, plain_of};
ghost use Rattle.decoded_value.specs.Shown.{shown, value_shown};
ghost use Rattle.decoded_value.specs.Sizes.{Sized, Fitting};
ghost use Rattle.decoded_value.specs.Readings.{decoded_at, decoded_array, decoded_annotation, decoded_outcome};

use refusal::{Read, Refusal};
use value_heads::Walk;

#[derive(Clone, Copy)]
pub enum Value {
    Byte(i8),
    Short(i16),
    Char(u16),
    Int(i32),
    Long(i64),
    Float { bits: u32, value: f32 },
    Double { bits: u64, value: f64 },
    Index { kind: u32, number: u32 },
    Array { offset: usize, length: usize },
    Annotation { offset: usize, length: usize },
    Null,
    Boolean(bool),
}

// The two ways from an unsigned number to a signed one.
fn plus(k: u64) -> i64
    requires { k < 2 ^ 63 }
    ensures { result ≡ pos k }
{
    k as i64
}

fn minus(k: u64) -> i64
    requires { k < 2 ^ 63 }
    ensures { result ≡ negsuc k }
{
    -1 - (k as i64)
}

// The signed number of n bytes whose unsigned number is x.
// `Sized` is no type of its own: the caller has just read the n bytes, and a struct of x and n would be made for the one call and taken apart in it.
fn extend(x: u64, n: u32) -> i64
    requires { Sized 8 n x }
    ensures { result ≡ signed n x }
{
    let half = 1u64 << (8 * n - 1);
    if x < half {
        return plus(x);
    }
    minus(half - 1 - (x - half))
}

fn byte_of(x: u64, n: u32) -> Value
    requires { Sized 1 n x }
    ensures { value_shown result ≡ shown (byte (signed n x)) }
{
    Value::Byte(extend(x, n) as i8)
}

fn short_of(x: u64, n: u32) -> Value
    requires { Sized 2 n x }
    ensures { value_shown result ≡ shown (short (signed n x)) }
{
    Value::Short(extend(x, n) as i16)
}

fn int_of(x: u64, n: u32) -> Value
    requires { Sized 4 n x }
    ensures { value_shown result ≡ shown (int (signed n x)) }
{
    Value::Int(extend(x, n) as i32)
}

// `Sized` is no type of its own: the caller has just read the n bytes, and a struct of x and n would be made for the one call and taken apart in it.
fn long_of(x: u64, n: u32) -> Value
    requires { Sized 8 n x }
    ensures { value_shown result ≡ shown (long (signed n x)) }
{
    Value::Long(extend(x, n))
}

// The number x of n bytes as the highest of w bytes, with zeros below.
fn raise(x: u64, n: u32, w: u32) -> u64
    requires { (w ≤ 8) × Sized w n x }
    ensures { (result ≡ raised w n x) × (result < 2 ^ (8 * w)) }
{
    x << (8 * (w - n))
}

// The float of a pattern. from_bits is not defined at a NaN's pattern, so there one is made by 0 / 0.
fn f32_of(bits: u32) -> f32
    ensures { result ≡ of_bits binary32 bits }
{
    if bits % 2147483648 / 8388608 == 255 {
        if bits % 8388608 != 0 {
            let zero: f32 = 0.0;
            return zero / zero;
        }
    }
    f32::from_bits(bits)
}

fn f64_of(bits: u64) -> f64
    ensures { result ≡ of_bits binary64 bits }
{
    if bits % 9223372036854775808 / 4503599627370496 == 2047 {
        if bits % 4503599627370496 != 0 {
            let zero: f64 = 0.0;
            return zero / zero;
        }
    }
    f64::from_bits(bits)
}

fn float_of(x: u64, n: u32) -> Value
    requires { Sized 4 n x }
    ensures { value_shown result ≡ shown (float (raised 4 n x)) }
{
    let bits = raise(x, n, 4) as u32;
    Value::Float {
        bits,
        value: f32_of(bits),
    }
}

// `Sized` is no type of its own: the caller has just read the n bytes, and a struct of x and n would be made for the one call and taken apart in it.
fn double_of(x: u64, n: u32) -> Value
    requires { Sized 8 n x }
    ensures { value_shown result ≡ shown (double (raised 8 n x)) }
{
    let bits = raise(x, n, 8);
    Value::Double {
        bits,
        value: f64_of(bits),
    }
}

// A float, null, a boolean or an index, by its head byte and the number of its bytes.
fn rest_of(head: u8, x: u64) -> Value
    requires { Fitting head x × (head % 32 ≡ 0x06 → ⊥) }
    ensures { value_shown result ≡ shown (rest_of (head % 32) (head / 32) x) }
{
    let code = head % 32;
    let argument = head / 32;
    match code {
        0x10 => float_of(x, (argument + 1) as u32),
        0x11 => double_of(x, (argument + 1) as u32),
        0x1e => Value::Null,
        0x1f => Value::Boolean(argument == 1),
        _ => Value::Index {
            kind: code as u32,
            number: x as u32,
        },
    }
}

// A value that is no body.
fn plain_of(head: u8, x: u64) -> Value
    requires { Fitting head x }
    ensures { value_shown result ≡ shown (plain_of (head % 32) (head / 32) x) }
{
    let code = head % 32;
    let size = (head / 32 + 1) as u32;
    match code {
        0x00 => byte_of(x, size),
        0x02 => short_of(x, size),
        0x03 => Value::Char(x as u16),
        0x04 => int_of(x, size),
        0x06 => long_of(x, size),
        _ => rest_of(head, x),
    }
}

// A nested array behind its head byte at a place: where its body lies.
fn array_at(s: &[u8], w: Walk, at: usize, left: u32) -> Result<Read<Value>, Refusal>
    requires { at < length s.now }
    ensures { decoded_outcome result ≡ decoded_array s.now w left (at + 1) }
{
    let next = encoded_value::array_body(s, w, at + 1, left)?;
    Ok(Read {
        value: Value::Array {
            offset: at + 1,
            length: next - at - 1,
        },
        next,
    })
}

// The same for a nested annotation. Not one function with a flag: it would be asked twice, for the callee and for the kind.
fn annotation_at(s: &[u8], w: Walk, at: usize, left: u32) -> Result<Read<Value>, Refusal>
    requires { at < length s.now }
    ensures { decoded_outcome result ≡ decoded_annotation s.now w left (at + 1) }
{
    let end = encoded_value::annotation_body(s, w, at + 1, left)?;
    Ok(Read {
        value: Value::Annotation {
            offset: at + 1,
            length: end - at - 1,
        },
        next: end,
    })
}

// The value at a place where so many bodies may still be opened.
pub fn decode_at(s: &[u8], w: Walk, at: usize, left: u32) -> Result<Read<Value>, Refusal>
    ensures { decoded_outcome result ≡ decoded_at s.now w left at }
{
    let head = value_heads::head_at(s, w.item, at)?;
    match head % 32 {
        0x1c => array_at(s, w, at, left),
        0x1d => annotation_at(s, w, at, left),
        _ => {
            let Read { value, next } = value_heads::checked_number(s, w, at + 1, head)?;
            Ok(Read {
                value: plain_of(head, value),
                next,
            })
        }
    }
}
