// A value and all that is in it: a line for each. Bodies in bodies are gone over with a stack, a step for each body that is open.
use super::lines::{Output, Stopped};
use super::names;
use decoded_value::Value;
use encoded_value::DEEPEST_VALUE;
use header::Header;
use refusal::Read;
use register_text::WholeNumber;
use std::env::Env;
use value_heads::Walk;

// How many bodies may be open in a value.
const STEPS: usize = 64;

// What a line is of: the class's type, and the field's name where it is a field's.
#[derive(Clone, Copy)]
pub struct Owner {
    pub class: u32,
    pub field: Option<u32>,
}

// What a value is: one that is stored, one by default, or an annotation's, which has a number.
#[derive(Clone, Copy)]
pub enum Kind {
    Stored,
    Default,
    Annotation(u32),
}

// What the lines of a value share.
#[derive(Clone, Copy)]
pub struct Fact {
    pub owner: Owner,
    pub kind: Kind,
}

// A step of a key: the number of a name's string, or so many values of the body, this one among them. Before the first value of a body it is of 0.
#[derive(Clone, Copy)]
enum Step {
    Named(u32),
    Nth(u32),
}

// A step, and where its value is.
#[derive(Clone, Copy)]
struct Entered {
    step: Step,
    at: usize,
}

// A body that is open: the step of the value in it that was entered last, and how many are left.
#[derive(Clone, Copy)]
struct Open {
    step: Step,
    left: u32,
}

// Where no body is open: all zeros, so that the whole stack is cleared at once for each value.
const SHUT: Open = Open {
    step: Step::Named(0),
    left: 0,
};

// A body that a value opens: how many values are in it, and whether each has a name.
#[derive(Clone, Copy)]
struct Body {
    named: bool,
    count: u32,
}

// Where to go on behind the line of a value, and the body that it opens.
#[derive(Clone, Copy)]
struct Shown {
    next: usize,
    body: Option<Body>,
}

// The class and the field, each with a tab behind it.
pub fn put_owner(
    rt: &(impl Env + Print),
    f: &[u8],
    header: Header,
    owner: Owner,
    out: &mut Output,
) -> Result<(), Stopped> {
    names::put_type(rt, f, header, owner.class, out)?;
    out.put(rt, b"\t")?;
    if let Some(field) = owner.field {
        names::put_string(rt, f, header, field, false, out)?;
    }
    out.put(rt, b"\t")
}

// The front of a line up to its key: class, field and the fact.
pub fn put_fact(
    rt: &(impl Env + Print),
    f: &[u8],
    header: Header,
    fact: Fact,
    out: &mut Output,
) -> Result<(), Stopped> {
    put_owner(rt, f, header, fact.owner, out)?;
    match fact.kind {
        Kind::Stored => out.put(rt, b"value"),
        Kind::Default => out.put(rt, b"default"),
        Kind::Annotation(number) => {
            out.put(rt, b"@")?;
            out.put_number(rt, number as u64)
        }
    }
}

// A step of a key.
fn put_step(
    rt: &(impl Env + Print),
    f: &[u8],
    header: Header,
    step: Step,
    out: &mut Output,
) -> Result<(), Stopped> {
    match step {
        Step::Named(name) => {
            out.put(rt, b".")?;
            names::put_string(rt, f, header, name, true, out)
        }
        Step::Nth(n) => {
            out.put(rt, b"[")?;
            out.put_number(rt, std::num::wrapping_sub_u32(n, 1) as u64)?;
            out.put(rt, b"]")
        }
    }
}

// The key of a value in a value: the fact, and the steps to it.
fn put_key(
    rt: &(impl Env + Print),
    f: &[u8],
    header: Header,
    fact: Fact,
    open: &[Open],
    out: &mut Output,
) -> Result<(), Stopped> {
    put_fact(rt, f, header, fact, out)?;
    for body in open {
        put_step(rt, f, header, body.step, out)?;
    }
    Ok(())
}

// A word, and a signed number.
fn put_signed_number(
    rt: &(impl Env + Print),
    word: &[u8],
    n: i64,
    out: &mut Output,
) -> Result<(), Stopped> {
    out.put(rt, word)?;
    out.put_integer(rt, n)
}

// The whole number of a float, where it is one, in a column more.
fn put_whole(
    rt: &(impl Env + Print),
    whole: Option<WholeNumber>,
    out: &mut Output,
) -> Result<(), Stopped> {
    if let Some(
        WholeNumber {
            negative,
            magnitude,
        },
    ) = whole
    {
        out.put(rt, b"\t")?;
        out.put_signed(rt, negative, magnitude)?;
    }
    Ok(())
}

fn put_float(rt: &(impl Env + Print), bits: u32, out: &mut Output) -> Result<(), Stopped> {
    out.put(rt, b"\tfloat\t")?;
    out.put_bits(rt, bits as u64, 8)?;
    put_whole(rt, register_text::whole_of_float(bits), out)
}

fn put_double(rt: &(impl Env + Print), bits: u64, out: &mut Output) -> Result<(), Stopped> {
    out.put(rt, b"\tdouble\t")?;
    out.put_bits(rt, bits, 16)?;
    put_whole(rt, register_text::whole_of_double(bits), out)
}

// A value that is an index, by its kind.
fn put_index(
    rt: &(impl Env + Print),
    f: &[u8],
    header: Header,
    kind: u32,
    n: u32,
    out: &mut Output,
) -> Result<(), Stopped> {
    match kind {
        0x15 => {
            out.put(rt, b"\tproto")?;
            names::put_number_column(rt, n as u64, out)
        }
        0x16 => {
            out.put(rt, b"\thandle")?;
            names::put_number_column(rt, n as u64, out)
        }
        0x17 => {
            out.put(rt, b"\tstring")?;
            names::put_string_column(rt, f, header, n, out)
        }
        0x18 => {
            out.put(rt, b"\ttype")?;
            names::put_type_column(rt, f, header, n, out)
        }
        0x1a => {
            out.put(rt, b"\tmethod")?;
            names::put_method(rt, f, header, n, out)
        }
        0x1b => {
            out.put(rt, b"\tenum")?;
            names::put_field(rt, f, header, n, out)
        }
        _ => {
            out.put(rt, b"\tfield")?;
            names::put_field(rt, f, header, n, out)
        }
    }
}

fn put_truth(rt: &(impl Env + Print), b: bool, out: &mut Output) -> Result<(), Stopped> {
    if b {
        return out.put(rt, b"\tboolean\t1");
    }
    out.put(rt, b"\tboolean\t0")
}

// A value that opens no body: its kind and its parts.
fn put_plain(
    rt: &(impl Env + Print),
    f: &[u8],
    header: Header,
    value: Value,
    out: &mut Output,
) -> Result<(), Stopped> {
    match value {
        Value::Byte(n) => put_signed_number(rt, b"\tbyte\t", n as i64, out),
        Value::Short(n) => put_signed_number(rt, b"\tshort\t", n as i64, out),
        Value::Char(n) => {
            out.put(rt, b"\tchar\t")?;
            out.put_number(rt, n as u64)
        }
        Value::Int(n) => put_signed_number(rt, b"\tint\t", n as i64, out),
        Value::Long(n) => put_signed_number(rt, b"\tlong\t", n, out),
        Value::Float { bits, value: _ } => put_float(rt, bits, out),
        Value::Double { bits, value: _ } => put_double(rt, bits, out),
        Value::Index { kind, number } => put_index(rt, f, header, kind, number, out),
        Value::Array {
            offset: _,
            length: _,
        } => Err(Stopped::Unread),
        Value::Annotation {
            offset: _,
            length: _,
        } => Err(Stopped::Unread),
        Value::Null => out.put(rt, b"\tnull"),
        Value::Boolean(b) => put_truth(rt, b, out),
    }
}

// The rest of a line: a value that opens no body.
pub fn put_value(
    rt: &(impl Env + Print),
    f: &[u8],
    header: Header,
    value: Value,
    out: &mut Output,
) -> Result<(), Stopped> {
    put_plain(rt, f, header, value, out)?;
    out.put(rt, b"\n")
}

// The rest of the line of an array, whose size is at a place.
fn show_array(
    rt: &(impl Env + Print),
    s: &[u8],
    item: usize,
    at: usize,
    out: &mut Output,
) -> Result<Shown, Stopped> {
    let Read { value: count, next } = leb128::uleb(s, at, item)?;
    out.put(rt, b"\tarray")?;
    names::put_number_column(rt, count as u64, out)?;
    out.put(rt, b"\n")?;
    Ok(Shown {
        next,
        body: Some(Body {
            named: false,
            count,
        }),
    })
}

// The rest of the line of an annotation that is a value: its type and its size are at a place.
fn show_annotation(
    rt: &(impl Env + Print),
    f: &[u8],
    header: Header,
    w: Walk,
    at: usize,
    out: &mut Output,
) -> Result<Shown, Stopped> {
    let s = header::up_to_end(f, header);
    let Read {
        value: type_index,
        next: middle,
    } = value_heads::index_at(s, w.item, w.types, at)?;
    let Read { value: count, next } = leb128::uleb(s, middle, w.item)?;
    out.put(rt, b"\tannotation")?;
    names::put_type_column(rt, f, header, type_index, out)?;
    names::put_number_column(rt, count as u64, out)?;
    out.put(rt, b"\n")?;
    Ok(Shown {
        next,
        body: Some(Body { named: true, count }),
    })
}

// The rest of the line of a value that opens no body, at a place.
fn show_plain(
    rt: &(impl Env + Print),
    f: &[u8],
    header: Header,
    w: Walk,
    at: usize,
    out: &mut Output,
) -> Result<Shown, Stopped> {
    let Read { value, next } = decoded_value::decode_at(
        header::up_to_end(f, header),
        w,
        at,
        DEEPEST_VALUE,
    )?;
    put_value(rt, f, header, value, out)?;
    Ok(Shown { next, body: None })
}

// The rest of the line of the value at a place.
fn show(
    rt: &(impl Env + Print),
    f: &[u8],
    header: Header,
    w: Walk,
    at: usize,
    out: &mut Output,
) -> Result<Shown, Stopped> {
    let s = header::up_to_end(f, header);
    if s.len() <= at {
        return Err(Stopped::Unread);
    }
    match s[at] % 32 {
        0x1c => show_array(rt, s, w.item, at + 1, out),
        0x1d => show_annotation(rt, f, header, w, at + 1, out),
        _ => show_plain(rt, f, header, w, at, out),
    }
}

// The next step of a body, and where its value is: behind its name where it has one.
fn enter(s: &[u8], w: Walk, step: Step, at: usize) -> Result<Entered, Stopped> {
    match step {
        Step::Nth(n) => Ok(Entered {
            step: Step::Nth(std::num::wrapping_add_u32(n, 1)),
            at,
        }),
        Step::Named(_) => {
            let Read { value: name, next } = value_heads::index_at(s, w.item, w.strings, at)?;
            Ok(Entered {
                step: Step::Named(name),
                at: next,
            })
        }
    }
}

// A body before its first value.
fn opened(body: Body) -> Open {
    Open {
        step: if body.named {
            Step::Named(0)
        } else {
            Step::Nth(0)
        },
        left: body.count,
    }
}

// The values of the bodies that are open, and all that is in them: where they end. Each lies behind the one before, which is tested; a body that ends closes a
// step.
fn write_open(
    rt: &(impl Env + Print),
    f: &[u8],
    header: Header,
    w: Walk,
    fact: Fact,
    open: &mut [Open; STEPS],
    from: usize,
    out: &mut Output,
) -> Result<usize, Stopped> {
    let end = header.end;
    let mut depth: usize = 1;
    let mut p = from;
    // `while`: how deep it stands goes up and down.
    while 0 < depth {
        let top = depth - 1;
        if open[top].left == 0 {
            depth = top;
            continue;
        }
        open[top].left -= 1;
        let entered = enter(header::up_to_end(f, header), w, open[top].step, p)?;
        open[top].step = entered.step;
        put_key(rt, f, header, fact, &open[..depth], out)?;
        let shown = show(rt, f, header, w, entered.at, out)?;
        let next = shown.next;
        if next <= p {
            return Err(Stopped::Unread);
        }
        if end < next {
            return Err(Stopped::Unread);
        }
        p = next;
        if let Some(body) = shown.body {
            if STEPS <= depth {
                return Err(Stopped::Unread);
            }
            open[depth] = opened(body);
            depth += 1;
        }
    }
    Ok(p)
}

// The values of a body and all that is in them: where they end.
pub fn write_values(
    rt: &(impl Env + Print),
    f: &[u8],
    header: Header,
    w: Walk,
    fact: Fact,
    named: bool,
    count: u32,
    from: usize,
    out: &mut Output,
) -> Result<usize, Stopped> {
    let mut open = [SHUT; STEPS];
    open[0] = opened(Body { named, count });
    write_open(rt, f, header, w, fact, &mut open, from, out)
}

// The value at a place, with the front of its line, and all that is in it: where it ends.
pub fn write_value(
    rt: &(impl Env + Print),
    f: &[u8],
    header: Header,
    w: Walk,
    fact: Fact,
    at: usize,
    out: &mut Output,
) -> Result<usize, Stopped> {
    put_fact(rt, f, header, fact, out)?;
    let Shown { next, body } = show(rt, f, header, w, at, out)?;
    match body {
        None => Ok(next),
        Some(Body { named, count }) => {
            write_values(rt, f, header, w, fact, named, count, next, out)
        }
    }
}
