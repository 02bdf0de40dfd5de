// Lines of numbers, each with a space behind it.
ghost use Rattle.std.specs.Prelude.{◌≡◌, [], ◌∷◌, ◌+◌, ◌*◌, ◌≤◌, length};
ghost use Rattle.report.specs.Stored.{Stored};
ghost use Rattle.asking.specs.Lines.{line, marked, chosen, Spelt, Laid};

// A text, where there is room for it.
fn put(text: &[u8], out: &mut [u8], at: usize) -> usize
    requires { at + length text.now ≤ length out.old }
    ensures { Stored text.now at out.old out.new result }
{
    let end = at + text.len();
    out[at..end].copy_from_slice(text);
    end
}

// A number's digits, into a room of their own.
fn digits_of(n: u64, room: &mut [u8; 20]) -> usize
    ensures { Spelt n room.new result }
{
    io::decimal(n, room)
}

// A number, where there is room for it.
fn put_number(n: u64, out: &mut [u8], at: usize) -> usize
    requires { at + 21 ≤ length out.old }
    ensures { Laid (n ∷ []) at out.old out.new result }
{
    let mut digits = [0u8; 20];
    let k = digits_of(n, &mut digits);
    let p = put(&digits[..k], out, at);
    put(b" ", out, p)
}

// A word of a row, where its bit is set.
fn put_word(word: u64, bits: u32, out: &mut [u8], at: usize) -> usize
    requires { at + 21 ≤ length out.old }
    ensures { Laid (marked bits word) at out.old out.new result }
{
    if bits % 2 == 1 {
        return put_number(word, out, at);
    }
    at
}

// The words of a row whose bits are set, the lowest first.
fn words_into(row: &[u64], mask: u32, out: &mut [u8]) -> usize
    requires { 21 * length row.now ≤ length out.old }
    ensures { Stored (line (chosen mask row.now)) 0 out.old out.new result }
{
    let mut bits = mask;
    let mut at: usize = 0;
    for word in row {
        at = put_word(*word, bits, out, at);
        bits = bits / 2;
    }
    at
}

// What is written: the words of a row that a mask chooses, bytes, and units.
pub fn write_words(row: [u64; 20], mask: u32) {
    let mut text = [0u8; 420];
    let end = words_into(&row, mask, &mut text);
    io::write_all(1, &text[..end]);
}

fn write_number(n: u64) {
    let mut text = [0u8; 21];
    let end = put_number(n, &mut text, 0);
    io::write_all(1, &text[..end]);
}

pub fn write_bytes(bytes: &[u8]) {
    for b in bytes {
        write_number(*b as u64);
    }
}

pub fn write_units(units: &[u16]) {
    for unit in units {
        write_number(*unit as u64);
    }
}
