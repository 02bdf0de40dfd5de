// The records of types, protos, fields, methods and method handles. Each is read by where its table begins and its number in it.
#![tactic(auto)]

ghost use Rattle.std.specs.Prelude.{◌≡◌};
ghost use Rattle.ids.specs.Records.{type_at, proto_at, member_id_at, handle_at};
ghost use Rattle.ids.specs.Answers.{index_outcome, proto_outcome, member_id_outcome, handle_outcome};

use frame::Frame;
use refusal::Refusal;

// A proto: its shorty, its return type, and where its parameters are, 0 for none.
#[derive(Clone, Copy)]
pub struct Proto {
    pub shorty: u32,
    pub return_type: u32,
    pub parameters: u32,
}

// A field or a method: its class, its type or proto, and its name.
#[derive(Clone, Copy)]
pub struct MemberId {
    pub class: u32,
    pub kind: u32,
    pub name: u32,
}

// A method handle: its kind, and the field (0 to 3) or the method (4 to 8) that it names.
#[derive(Clone, Copy)]
pub struct Handle {
    pub kind: u32,
    pub number: u32,
}

// A type: its string.
pub fn type_at(f: &[u8], frame: Frame, offset: u32, n: u32) -> Result<u32, Refusal>
    ensures { index_outcome result ≡ type_at f.now frame offset n }
{
    let place = offset as usize + 4 * n as usize;
    let string = word::u32_at(f, place, frame.order);
    if string < frame.strings {
        return Ok(string);
    }
    Err(refusal::wrong_index(place))
}

// A proto's own rules: shorty, return type, parameters.
pub fn proto_at(f: &[u8], frame: Frame, end: usize, offset: u32, n: u32) -> Result<Proto, Refusal>
    ensures { proto_outcome result ≡ proto_at f.now frame end offset n }
{
    let place = offset as usize + 12 * n as usize;
    let shorty = word::u32_at(f, place, frame.order);
    let return_type = word::u32_at(f, place + 4, frame.order);
    let parameters = word::u32_at(f, place + 8, frame.order);
    if frame.strings <= shorty {
        return Err(refusal::wrong_index(place));
    }
    if frame.types <= return_type {
        return Err(refusal::wrong_index(place));
    }
    if frame::is_allowed_or_absent(frame.start, end, true, parameters as usize) {
        return Ok(Proto {
            shorty,
            return_type,
            parameters,
        });
    }
    Err(refusal::wrong_offset(place))
}

// A field's or a method's own rules: `kinds` is how many types or protos there are.
pub fn member_at(
    f: &[u8],
    frame: Frame,
    kinds: u32,
    offset: u32,
    n: u32,
) -> Result<MemberId, Refusal>
    ensures { member_id_outcome result ≡ member_id_at f.now frame kinds offset n }
{
    let place = offset as usize + 8 * n as usize;
    let class = word::u16_at(f, place, frame.order) as u32;
    let kind = word::u16_at(f, place + 2, frame.order) as u32;
    let name = word::u32_at(f, place + 4, frame.order);
    if frame.types <= class {
        return Err(refusal::wrong_index(place));
    }
    if kinds <= kind {
        return Err(refusal::wrong_index(place));
    }
    if frame.strings <= name {
        return Err(refusal::wrong_index(place));
    }
    Ok(MemberId { class, kind, name })
}

// A method handle's own rules: its kind, then the field or the method.
pub fn handle_at(f: &[u8], frame: Frame, offset: u32, n: u32) -> Result<Handle, Refusal>
    ensures { handle_outcome result ≡ handle_at f.now frame offset n }
{
    let place = offset as usize + 8 * n as usize;
    let kind = word::u16_at(f, place, frame.order) as u32;
    let number = word::u16_at(f, place + 4, frame.order) as u32;
    if 8 < kind {
        return Err(refusal::unknown_kind(place));
    }
    if kind <= 3 {
        if number < frame.fields {
            return Ok(Handle { kind, number });
        }
        return Err(refusal::wrong_index(place));
    }
    if number < frame.methods {
        return Ok(Handle { kind, number });
    }
    Err(refusal::wrong_index(place))
}
