// The report of a check: lines of a name and a value, byte for byte, into a lent output.
#![tactic(auto)]

ghost use Rattle.std.specs.Prelude.{◌≡◌, [], ◌∷◌, ◌++◌, ◌+◌, ◌<◌, ◌≤◌, length};
ghost use Rattle.report.specs.Decimal.{decimal};
ghost use Rattle.report.specs.Lines.{lines, counted, order_line, ascii, accepted_lines, refused_lines, report_of};
ghost use Rattle.verdict.specs.Answers.{verdict_outcome};
ghost use Rattle.report.specs.Stored.{Stored, written, content};
ghost use Rattle.report.specs.Rows.{Named, ThreeNamed, Rows};
ghost use Rattle.report.specs.Answers.{report_outcome};

use header::Header;
use refusal::Refusal;
use verdict::Verdict;
use word::Endian;

// One byte, where there is room for it; the place after it.
fn put_byte(b: u8, out: &mut [u8], at: usize) -> usize
    requires { at < length out.old }
    ensures { Stored (b ∷ []) at out.old out.new result }
{
    out[at] = b;
    at + 1
}

// A text, where there is room for it. What puts requires the room: the public functions have made it, or tested it.
fn put(text: &[u8], out: &mut [u8], at: usize) -> usize
    requires { at + length text.now ≤ length out.old }
    ensures { Stored text.now at out.old out.new result }
{
    let end = at + text.len();
    out[at..end].copy_from_slice(text);
    end
}

// The digits of a number: those of a tenth of it, then the last.
fn put_digits(n: u64, out: &mut [u8], at: usize) -> usize
    requires { at + length (decimal n) ≤ length out.old }
    ensures { Stored (decimal n) at out.old out.new result }
{
    if n < 10 {
        return put_byte(48 + n as u8, out, at);
    }
    let p = put_digits(n / 10, out, at);
    put_byte(48 + (n % 10) as u8, out, p)
}

// A line's name and its sign.
fn put_name(name: &[u8], out: &mut [u8], at: usize) -> usize
    requires { Named name.now at out.old }
    ensures { Stored (name.now ++ (61 ∷ [])) at out.old out.new result }
{
    let p = put(name, out, at);
    put_byte(b'=', out, p)
}

// A line whose value is a word.
fn put_word(name: &[u8], word: &[u8], out: &mut [u8], at: usize) -> usize
    requires { Named name.now at out.old × (length word.now ≤ 20) }
    ensures { Rows (record { name = name.entry.now; value = word.now } ∷ []) at out.old out.new result }
{
    let p = put_name(name, out, at);
    let q = put(word, out, p);
    put_byte(b'\n', out, q)
}

// A line whose value is a number.
fn put_number(name: &[u8], n: u64, out: &mut [u8], at: usize) -> usize
    requires { Named name.now at out.old }
    ensures { Rows (counted name.now n ∷ []) at out.old out.new result }
{
    let p = put_name(name, out, at);
    let end = put_digits(n, out, p);
    put_byte(b'\n', out, end)
}

// The line of the byte order.
fn put_order(order: Endian, out: &mut [u8], at: usize) -> usize
    requires { at + 32 ≤ length out.old }
    ensures { Rows (order_line order ∷ []) at out.old out.new result }
{
    match order {
        Endian::Little => put_word(b"endian", b"little", out, at),
        Endian::Big => put_word(b"endian", b"big", out, at),
    }
}

// Three lines whose values are numbers.
fn put_three(
    x: &[u8],
    a: u64,
    y: &[u8],
    b: u64,
    z: &[u8],
    c: u64,
    out: &mut [u8],
    at: usize,
) -> usize
    requires { ThreeNamed x.now y.now z.now at out.old }
    ensures { Rows (counted x.now a ∷ counted y.now b ∷ counted z.now c ∷ []) at out.old out.new result }
{
    let p = put_number(x, a, out, at);
    let q = put_number(y, b, out, p);
    put_number(z, c, out, q)
}

// The first three lines of an accepted file.
fn put_top(version: u32, order: Endian, out: &mut [u8]) -> usize
    requires { 288 ≤ length out.old }
    ensures { Rows (counted (ascii "accepted") 1 ∷ counted (ascii "version") version ∷ order_line order ∷ []) 0 out.old out.new result }
{
    let p = put_number(b"accepted", 1, out, 0);
    let q = put_number(b"version", version as u64, out, p);
    put_order(order, out, q)
}

// The counts of what names are made of.
fn put_names(strings: u32, types: u32, protos: u32, out: &mut [u8], at: usize) -> usize
    requires { at + 96 ≤ length out.old }
    ensures { Rows (counted (ascii "strings") strings ∷ counted (ascii "types") types ∷ counted (ascii "protos") protos ∷ []) at out.old out.new result }
{
    put_three(
        b"strings",
        strings as u64,
        b"types",
        types as u64,
        b"protos",
        protos as u64,
        out,
        at,
    )
}

// The counts of members and classes.
fn put_members(fields: u32, methods: u32, classes: u32, out: &mut [u8], at: usize) -> usize
    requires { at + 96 ≤ length out.old }
    ensures { Rows (counted (ascii "fields") fields ∷ counted (ascii "methods") methods ∷ counted (ascii "classes") classes ∷ []) at out.old out.new result }
{
    put_three(
        b"fields",
        fields as u64,
        b"methods",
        methods as u64,
        b"classes",
        classes as u64,
        out,
        at,
    )
}

// All lines of an accepted file.
fn put_accepted(header: Header, out: &mut [u8]) -> usize
    requires { 288 ≤ length out.old }
    ensures { Rows (accepted_lines header) 0 out.old out.new result }
{
    let order = header.order;
    let p = put_top(header.version, order, out);
    let q = put_names(
        header.strings.count,
        header.types.count,
        header.protos.count,
        out,
        p,
    );
    put_members(
        header.fields.count,
        header.methods.count,
        header.classes.count,
        out,
        q,
    )
}

// A whole text to a lent output: its length, or 19, writing nothing, where the output is shorter.
pub fn text_into(text: &[u8], out: &mut [u8]) -> Result<usize, Refusal>
    ensures answer { report_outcome result ≡ written text.now (length out.old) }
    ensures wrote { out.new ≡ content text.now out.old }
{
    if out.len() < text.len() {
        return Err(refusal::no_room());
    }
    put(text, out, 0);
    Ok(text.len())
}

// A number's digits to a lent output: how many, or 19, writing nothing, where the output is shorter.
pub fn number_into(n: u64, out: &mut [u8]) -> Result<usize, Refusal>
    ensures answer { report_outcome result ≡ written (decimal n) (length out.old) }
    ensures wrote { out.new ≡ content (decimal n) out.old }
{
    let mut room = [0u8; 20];
    let k = put_digits(n, &mut room, 0);
    text_into(&room[0..k], out)
}

// The report of an accepted file: how many bytes, or 19, writing nothing, where the output is shorter.
fn accepted_into(header: Header, out: &mut [u8]) -> Result<usize, Refusal>
    ensures answer { report_outcome result ≡ written (lines (accepted_lines header)) (length out.old) }
    ensures wrote { out.new ≡ content (lines (accepted_lines header)) out.old }
{
    let mut room = [0u8; 288];
    let n = put_accepted(header, &mut room);
    text_into(&room[0..n], out)
}

// The report of a refusal.
fn refused_into(refusal: Refusal, out: &mut [u8]) -> Result<usize, Refusal>
    ensures answer { report_outcome result ≡ written (lines (refused_lines refusal)) (length out.old) }
    ensures wrote { out.new ≡ content (lines (refused_lines refusal)) out.old }
{
    let mut room = [0u8; 288];
    let n = put_three(
        b"accepted",
        0,
        b"refusal",
        refusal.number as u64,
        b"place",
        refusal.place as u64,
        &mut room,
        0,
    );
    text_into(&room[0..n], out)
}

// The report of a verdict: of the header of an accepted file, or of the refusal.
pub fn verdict_into(verdict: Verdict, out: &mut [u8]) -> Result<usize, Refusal>
    ensures answer { report_outcome result ≡ written (report_of (verdict_outcome verdict)) (length out.old) }
    ensures wrote { out.new ≡ content (report_of (verdict_outcome verdict)) out.old }
{
    match verdict {
        Ok(header) => accepted_into(header, out),
        Err(r) => refused_into(r, out),
    }
}
