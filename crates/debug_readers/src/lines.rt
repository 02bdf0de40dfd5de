// The debug information of a method's code.
ghost use Rattle.std.specs.Prelude.{◌≡◌};
ghost use Rattle.debug_readers.specs.Debug.{extent_under, method_debug, name_under, parameter_name, line_program};
ghost use Rattle.debug_readers.specs.Answers.{maybe_debug, maybe_name};

use class_readers::Spot;
use debug_info::DebugOutline;
use refusal::Refusal;

fn extent_under(f: &[u8], spot: Spot) -> Result<Option<DebugOutline>, Refusal>
    ensures { maybe_debug result ≡ extent_under f.now spot }
{
    let header = spot.header;
    let strings = header.strings;
    let outline = debug_info::debug_at(
        header::up_to_end(f, header),
        strings.count,
        spot.place as usize,
    )?;
    Ok(Some(outline))
}

// The starting line of the code of method k of a list of class c, how many names, and where the line program lies.
pub fn debug(f: &[u8], c: u32, list: u32, k: u32) -> Result<Option<DebugOutline>, Refusal>
    ensures { maybe_debug result ≡ method_debug f.now c list k }
{
    let Some(spot) = class_readers::debug_spot(f, c, list, k)? else {
        return Ok(None);
    };
    extent_under(f, spot)
}

fn name_under(f: &[u8], spot: Spot, p: u32) -> Result<Option<Option<u32>>, Refusal>
    ensures { maybe_name result ≡ name_under f.now p spot }
{
    let header = spot.header;
    let strings = header.strings;
    let name = debug_info::name_at(
        header::up_to_end(f, header),
        strings.count,
        spot.place as usize,
        p,
    )?;
    Ok(Some(name))
}

// The name of parameter p: absent without debug information, else a string's number or no name.
pub fn debug_parameter(
    f: &[u8],
    c: u32,
    list: u32,
    k: u32,
    p: u32,
) -> Result<Option<Option<u32>>, Refusal>
    ensures { maybe_name result ≡ parameter_name f.now c list k p }
{
    let Some(spot) = class_readers::debug_spot(f, c, list, k)? else {
        return Ok(None);
    };
    name_under(f, spot, p)
}

// The line program, no bytes where there is none or it is refused.
pub fn line_program(f: &[u8], c: u32, list: u32, k: u32) -> &[u8]
    ensures { result.now ≡ line_program f.now c list k }
{
    match debug(f, c, list, k) {
        Err(_) => &f[0..0],
        Ok(None) => &f[0..0],
        Ok(Some(DebugOutline { start, length, .. })) => word::bytes_at(f, start, length),
    }
}
