// The flag writer: the numbers of the bits that are set, one byte each, into a lent output.
#![tactic(auto)]

ghost use Rattle.std.specs.Prelude.{◌≡◌, ◌≤◌, length};
ghost use Rattle.access_flags.specs.Flags.{kept, flags, filled, written, content};
ghost use Rattle.access_flags.specs.Answers.{flags_outcome};

use refusal::Refusal;

// Bit numbers 0 to 17: `flag_bits` in the definitions.
const FLAG_BITS: u8 = 18;

// Is bit i, the lowest of v, handed out: of classes bits 6 and 7 are not.
fn is_kept(class: bool, i: u8, v: u32) -> bool
    ensures { result ≡ kept class i v }
{
    if v % 2 != 1 {
        return false;
    }
    if class {
        if i == 6 {
            return false;
        }
        return i != 7;
    }
    true
}

// How many numbers there are: counted before anything is written, since a refusal writes nothing.
fn count_of(value: u32, class: bool) -> usize
    ensures { result ≡ length (flags class value) }
{
    let mut n: usize = 0;
    let mut v = value;
    for i in 0..FLAG_BITS {
        if is_kept(class, i, v) {
            n += 1;
        }
        v /= 2;
    }
    n
}

// The writing pass, where all numbers have room.
fn fill(value: u32, class: bool, out: &mut [u8])
    requires { length (flags class value) ≤ length out.old }
    ensures { out.new ≡ filled (flags class value) out.old }
{
    let mut p: usize = 0;
    let mut v = value;
    for i in 0..FLAG_BITS {
        if is_kept(class, i, v) {
            out[p] = i;
            p += 1;
        }
        v /= 2;
    }
}

// The bit numbers of the flags, rising: how many, or 19, writing nothing, where the output is shorter.
pub fn flags_into(value: u32, class: bool, out: &mut [u8]) -> Result<usize, Refusal>
    ensures answer { flags_outcome result ≡ written class value (length out.old) }
    ensures content { out.new ≡ content class value out.old }
{
    let n = count_of(value, class);
    if out.len() < n {
        return Err(refusal::no_room());
    }
    fill(value, class, out);
    Ok(n)
}
