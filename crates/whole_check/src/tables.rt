// Tables gone over record by record, each with all below it.
ghost use Rattle.std.specs.Prelude.{◌≡◌, ◌+◌, ◌*◌};
ghost use Rattle.refusal.specs.Answers.{checked_outcome};
ghost use Rattle.whole_check.specs.Passes.{rising, types_pass, proto_pass, protos_pass, member_pass, members_pass, handle_pass, handles_pass, classes_pass};

use frame::Frame;
use header::Header;
use refusal::Refusal;

// Does a type's string come after the last one, if there was one: two parameters, as `rising` of specs/Passes takes them.
fn rises(later: bool, last: u32, string: u32) -> bool
    ensures { result ≡ rising later last string }
{
    if later {
        return last < string;
    }
    true
}

// Where the record of type n is.
fn place_of(offset: u32, n: u32) -> usize
    ensures { result ≡ offset + 4 * n }
{
    offset as usize + 4 * n as usize
}

// All types, each by its own rule and then by its order.
pub fn types_pass(f: &[u8], frame: Frame, offset: u32, count: u32) -> Result<(), Refusal>
    ensures { checked_outcome result ≡ types_pass f.now frame offset count }
{
    let mut later = false;
    let mut last: u32 = 0;
    for k in 0..count {
        let string = ids::type_at(f, frame, offset, k)?;
        if !rises(later, last, string) {
            return Err(refusal::out_of_order(place_of(offset, k)));
        }
        last = string;
        later = true;
    }
    Ok(())
}

// Proto n with its parameter list.
fn proto_pass(f: &[u8], header: Header, n: u32) -> Result<(), Refusal>
    ensures { checked_outcome result ≡ proto_pass f.now header n }
{
    let t = header.protos;
    let p = ids::proto_at(f, header::plain_frame(header), header.end, t.offset, n)?;
    type_list::check_types(f, header, p.parameters)
}

pub fn protos_pass(f: &[u8], header: Header, count: u32) -> Result<(), Refusal>
    ensures { checked_outcome result ≡ protos_pass f.now header count }
{
    for k in 0..count {
        proto_pass(f, header, k)?;
    }
    Ok(())
}

// Field or method n: `kinds` counts types for a field, protos for a method.
fn member_pass(f: &[u8], frame: Frame, kinds: u32, offset: u32, n: u32) -> Result<(), Refusal>
    ensures { checked_outcome result ≡ member_pass f.now frame kinds offset n }
{
    ids::member_at(f, frame, kinds, offset, n)?;
    Ok(())
}

pub fn members_pass(
    f: &[u8],
    frame: Frame,
    kinds: u32,
    offset: u32,
    count: u32,
) -> Result<(), Refusal>
    ensures { checked_outcome result ≡ members_pass f.now frame kinds offset count }
{
    for k in 0..count {
        member_pass(f, frame, kinds, offset, k)?;
    }
    Ok(())
}

fn handle_pass(f: &[u8], frame: Frame, offset: u32, n: u32) -> Result<(), Refusal>
    ensures { checked_outcome result ≡ handle_pass f.now frame offset n }
{
    ids::handle_at(f, frame, offset, n)?;
    Ok(())
}

pub fn handles_pass(f: &[u8], frame: Frame, offset: u32, count: u32) -> Result<(), Refusal>
    ensures { checked_outcome result ≡ handles_pass f.now frame offset count }
{
    for k in 0..count {
        handle_pass(f, frame, offset, k)?;
    }
    Ok(())
}

// All classes, each with all below it.
pub fn classes_pass(f: &[u8], header: Header, handles: u32, count: u32) -> Result<(), Refusal>
    ensures { checked_outcome result ≡ classes_pass f.now header handles count }
{
    for k in 0..count {
        class_walk::check_class(f, header, handles, k)?;
    }
    Ok(())
}
