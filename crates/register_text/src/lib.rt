// What a line of the register is made of, byte for byte, into a lent output: texts escaped, numbers in decimal and in hexadecimal, and the whole number that a float is.
#![tactic(auto)]

ghost use Rattle.std.specs.Prelude.{◌≡◌, [], ◌∷◌, true, ◌+◌, ◌/◌, ◌%◌, ◌≤◌, ◌<◌, length};
ghost use Rattle.report.specs.Answers.{report_outcome};
ghost use Rattle.report.specs.Stored.{Stored, written, content};
ghost use Rattle.register_text.specs.Escapes.{in_key, special, hex, form, Pieced};
ghost use Rattle.register_text.specs.Numbers.{signed, integer, hexadecimal};
ghost use Rattle.register_text.specs.Wholes.{halved_by, scaled_of, float_worth, double_worth};
ghost use Rattle.register_text.specs.Answers.{half_worth, whole_worth};

use refusal::Refusal;

// How far a text has been written: the place of its next byte, and how many bytes of the output are used.
#[derive(Clone, Copy)]
pub struct Piece {
    pub next: usize,
    pub used: usize,
}

// The whole number that a float is, where it is one; 0 is never negative.
#[derive(Clone, Copy)]
pub struct WholeNumber {
    pub negative: bool,
    pub magnitude: u64,
}

// The signs that take a key apart: a point, two brackets and an at.
fn is_key_sign(b: u8) -> bool
    ensures { result ≡ in_key b }
{
    if b == b'.' {
        return true;
    }
    if b == b'[' {
        return true;
    }
    if b == b']' {
        return true;
    }
    b == b'@'
}

// Is a byte written by its number?
fn is_special(b: u8, key: bool) -> bool
    ensures { result ≡ special key b }
{
    if b < 0x20 {
        return true;
    }
    if b == 0x7f {
        return true;
    }
    if b == b'\\' {
        return true;
    }
    if key {
        return is_key_sign(b);
    }
    false
}

// How many bytes the writing of a byte has.
fn form_size(b: u8, key: bool) -> usize
    ensures { result ≡ length (form key b) }
{
    if is_special(b, key) {
        return 4;
    }
    1
}

// A hexadecimal digit, small letters.
fn hex_digit(d: u8) -> u8
    requires { d < 16 }
    ensures { result ≡ hex d }
{
    if d < 10 {
        return 48 + d;
    }
    87 + d
}

// One byte, where there is room for it; the place after it.
fn put_byte(b: u8, out: &mut [u8], at: usize) -> usize
    requires { at < length out.old }
    ensures { Stored (b ∷ []) at out.old out.new result }
{
    out[at] = b;
    at + 1
}

// A byte by its number, where there is room for it: a backslash, x and two digits.
fn put_escape(b: u8, out: &mut [u8], at: usize) -> usize
    requires { at + 4 ≤ length out.old }
    ensures { Stored (92 ∷ 120 ∷ hex (b / 16) ∷ hex (b % 16) ∷ []) at out.old out.new result }
{
    let p = put_byte(b'\\', out, at);
    let q = put_byte(b'x', out, p);
    let last = put_byte(hex_digit(b / 16), out, q);
    put_byte(hex_digit(b % 16), out, last)
}

// The writing of a byte, where there is room for it.
fn put_form(b: u8, key: bool, out: &mut [u8], at: usize) -> usize
    requires { at + length (form key b) ≤ length out.old }
    ensures { Stored (form key b) at out.old out.new result }
{
    if is_special(b, key) {
        return put_escape(b, out, at);
    }
    put_byte(b, out, at)
}

// The writing of a text from a place on, as far as whole forms fit the output; `key` for a name of a key.
pub fn escape_into(text: &[u8], from: usize, key: bool, out: &mut [u8]) -> Piece
    ensures { Pieced key text.now from out.old out.new result.next result.used }
{
    let mut p: usize = 0;
    for i in from..text.len() {
        let b = text[i];
        let size = form_size(b, key);
        if out.len() - p < size {
            return Piece { next: i, used: p };
        }
        p = put_form(b, key, out, p);
    }
    Piece {
        next: from.max(text.len()),
        used: p,
    }
}

// A minus and a number's digits: how many bytes, or 19, writing nothing, where the output is shorter.
fn minus_into(n: u64, out: &mut [u8]) -> Result<usize, Refusal>
    ensures answer { report_outcome result ≡ written (signed true n) (length out.old) }
    ensures wrote { out.new ≡ content (signed true n) out.old }
{
    if out.len() < 1 {
        return Err(refusal::no_room());
    }
    let k = report::number_into(n, &mut out[1..])?;
    let end = k + 1;
    out[0] = b'-';
    Ok(end)
}

// A number with its sign, in decimal.
pub fn signed_into(negative: bool, n: u64, out: &mut [u8]) -> Result<usize, Refusal>
    ensures answer { report_outcome result ≡ written (signed negative n) (length out.old) }
    ensures wrote { out.new ≡ content (signed negative n) out.old }
{
    if negative {
        return minus_into(n, out);
    }
    report::number_into(n, out)
}

// A signed number in decimal.
pub fn integer_into(number: i64, out: &mut [u8]) -> Result<usize, Refusal>
    ensures answer { report_outcome result ≡ written (integer number) (length out.old) }
    ensures wrote { out.new ≡ content (integer number) out.old }
{
    let magnitude = sign::magnitude_of_long(number);
    if number < 0 {
        return signed_into(true, magnitude, out);
    }
    signed_into(false, magnitude, out)
}

// A number in so many hexadecimal digits, the highest first; what is above them is left out.
pub fn hex_into(n: u64, digits: usize, out: &mut [u8]) -> Result<usize, Refusal>
    ensures answer { report_outcome result ≡ written (hexadecimal digits n) (length out.old) }
    ensures wrote { out.new ≡ content (hexadecimal digits n) out.old }
{
    if out.len() < digits {
        return Err(refusal::no_room());
    }
    let mut rest = n;
    for i in (0..digits).rev() {
        out[i] = hex_digit((rest % 16) as u8);
        rest = rest / 16;
    }
    Ok(digits)
}

// A number halved so many times, where it stays whole each time.
fn halved(n: u64, times: u32) -> Option<u64>
    ensures { half_worth result ≡ halved_by times n }
{
    let mut rest = n;
    for _ in 0..times {
        if rest % 2 != 0 {
            return None;
        }
        rest = rest / 2;
    }
    Some(rest)
}

// A significand halved so many times, with a sign.
fn scaled(negative: bool, significand: u64, times: u32) -> Option<WholeNumber>
    ensures { whole_worth result ≡ scaled_of negative significand times }
{
    let magnitude = halved(significand, times)?;
    Some(WholeNumber {
        negative,
        magnitude,
    })
}

// The whole number that a float of these bits is, of at most 2^24 either way. From exponent 127 on it is 1 or more; from 150 on it is whole, and 151 is
// from 2^24 on.
pub fn whole_of_float(bits: u32) -> Option<WholeNumber>
    ensures { whole_worth result ≡ float_worth bits }
{
    let negative = 2147483648 <= bits;
    let exponent = bits / 8388608 % 256;
    let fraction = (bits % 8388608) as u64;
    if bits % 2147483648 == 0 {
        return Some(WholeNumber {
            negative: false,
            magnitude: 0,
        });
    }
    if exponent < 127 {
        return None;
    }
    if exponent <= 150 {
        return scaled(negative, 8388608 + fraction, 150 - exponent);
    }
    if bits % 2147483648 == 1266679808 {
        return Some(WholeNumber {
            negative,
            magnitude: 16777216,
        });
    }
    None
}

// The whole number that a double of these bits is, of at most 2^53 either way.
pub fn whole_of_double(bits: u64) -> Option<WholeNumber>
    ensures { whole_worth result ≡ double_worth bits }
{
    let negative = 9223372036854775808 <= bits;
    let exponent = (bits / 4503599627370496 % 2048) as u32;
    let fraction = bits % 4503599627370496;
    if bits % 9223372036854775808 == 0 {
        return Some(WholeNumber {
            negative: false,
            magnitude: 0,
        });
    }
    if exponent < 1023 {
        return None;
    }
    if exponent <= 1075 {
        return scaled(negative, 4503599627370496 + fraction, 1075 - exponent);
    }
    if bits % 9223372036854775808 == 4845873199050653696 {
        return Some(WholeNumber {
            negative,
            magnitude: 9007199254740992,
        });
    }
    None
}
