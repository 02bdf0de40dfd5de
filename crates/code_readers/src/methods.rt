// The code of a method: its sizes and counts, its units, its tries and handlers.
ghost use Rattle.std.specs.Prelude.{◌≡◌, length};
ghost use Rattle.code_item.specs.Answers.{cover_outcome};
ghost use Rattle.code_readers.specs.Code.{outline_under, method_code, try_under, try_number, cover_under, covering_try, handler_count, handler_under, handler_number, pair_under, handler_pair};
ghost use Rattle.code_readers.specs.Code.{units_into, units_written, units_under, method_units, units_over, units_content, code_in};
ghost use Rattle.class_readers.specs.Answers.{maybe_count};
ghost use Rattle.code_readers.specs.Answers.{maybe_code, maybe_try, maybe_handler, maybe_pair};

use class_readers::Spot;
use code_item::{HandlerOutline, NumberedTry, Outline};
use handlers::Pair;
use refusal::Refusal;

fn outline_under(f: &[u8], spot: Spot) -> Result<Option<Outline>, Refusal>
    ensures { maybe_code result ≡ outline_under f.now spot }
{
    let header = spot.header;
    let o = code_item::code_at(
        header::up_to_end(f, header),
        header::plain_frame(header),
        spot.place as usize,
    )?;
    Ok(Some(o))
}

// The sizes, counts and places of the code of method k of a list of class c.
pub fn code(f: &[u8], c: u32, list: u32, k: u32) -> Result<Option<Outline>, Refusal>
    ensures { maybe_code result ≡ method_code f.now c list k }
{
    let Some(spot) = class_readers::method_spot(f, c, list, k)? else {
        return Ok(None);
    };
    outline_under(f, spot)
}

// How many handlers it has.
pub fn handler_count(f: &[u8], c: u32, list: u32, k: u32) -> Result<Option<usize>, Refusal>
    ensures { maybe_count result ≡ handler_count f.now c list k }
{
    let Some(o) = code(f, c, list, k)? else {
        return Ok(None);
    };
    Ok(Some(o.handlers as usize))
}

fn try_under(f: &[u8], spot: Spot, t: u32) -> Result<Option<NumberedTry>, Refusal>
    ensures { maybe_try result ≡ try_under f.now t spot }
{
    let header = spot.header;
    let numbered = code_item::try_at(
        header::up_to_end(f, header),
        header::plain_frame(header),
        spot.place as usize,
        t,
    )?;
    Ok(Some(numbered))
}

// Try t of it.
pub fn try_item(f: &[u8], c: u32, list: u32, k: u32, t: u32) -> Result<Option<NumberedTry>, Refusal>
    ensures { maybe_try result ≡ try_number f.now c list k t }
{
    let Some(spot) = class_readers::method_spot(f, c, list, k)? else {
        return Ok(None);
    };
    try_under(f, spot, t)
}

fn cover_under(f: &[u8], spot: Spot, address: u32) -> Result<Option<u32>, Refusal>
    ensures { cover_outcome result ≡ cover_under f.now address spot }
{
    let header = spot.header;
    code_item::covering_try(
        header::up_to_end(f, header),
        header::plain_frame(header),
        spot.place as usize,
        address,
    )
}

// The number of its try that covers an address; where there is no code, no try does.
pub fn covering_try(
    f: &[u8],
    c: u32,
    list: u32,
    k: u32,
    address: u32,
) -> Result<Option<u32>, Refusal>
    ensures { cover_outcome result ≡ covering_try f.now c list k address }
{
    let Some(spot) = class_readers::method_spot(f, c, list, k)? else {
        return Ok(None);
    };
    cover_under(f, spot, address)
}

fn handler_under(f: &[u8], spot: Spot, number: u32) -> Result<Option<HandlerOutline>, Refusal>
    ensures { maybe_handler result ≡ handler_under f.now number spot }
{
    let header = spot.header;
    let handler = code_item::handler_at(
        header::up_to_end(f, header),
        header::plain_frame(header),
        spot.place as usize,
        number,
    )?;
    Ok(Some(handler))
}

// A handler of it.
pub fn handler(
    f: &[u8],
    c: u32,
    list: u32,
    k: u32,
    number: u32,
) -> Result<Option<HandlerOutline>, Refusal>
    ensures { maybe_handler result ≡ handler_number f.now c list k number }
{
    let Some(spot) = class_readers::method_spot(f, c, list, k)? else {
        return Ok(None);
    };
    handler_under(f, spot, number)
}

fn pair_under(f: &[u8], spot: Spot, number: u32, p: u32) -> Result<Option<Pair>, Refusal>
    ensures { maybe_pair result ≡ pair_under f.now number p spot }
{
    let header = spot.header;
    let pair = code_item::pair_at(
        header::up_to_end(f, header),
        header::plain_frame(header),
        spot.place as usize,
        number,
        p,
    )?;
    Ok(Some(pair))
}

// Pair p of a handler of it.
pub fn handler_pair(
    f: &[u8],
    c: u32,
    list: u32,
    k: u32,
    number: u32,
    p: u32,
) -> Result<Option<Pair>, Refusal>
    ensures { maybe_pair result ≡ handler_pair f.now c list k number p }
{
    let Some(spot) = class_readers::method_spot(f, c, list, k)? else {
        return Ok(None);
    };
    pair_under(f, spot, number, p)
}

// So many units of the code at a place.
fn units_into(f: &[u8], spot: Spot, count: u32, out: &mut [u16]) -> Result<Option<usize>, Refusal>
    ensures answer { maybe_count result ≡ units_into f.now spot count (length out.old) }
    ensures content { out.new ≡ units_written f.now spot count out.old }
{
    let header = spot.header;
    let order = header.order;
    let n = code_units::units_into(
        header::up_to_end(f, header),
        order,
        spot.place as usize + 16,
        count,
        out,
    )?;
    Ok(Some(n as usize))
}

fn units_under(f: &[u8], spot: Spot, out: &mut [u16]) -> Result<Option<usize>, Refusal>
    ensures answer { maybe_count result ≡ units_under f.now (length out.old) spot }
    ensures content { out.new ≡ units_over (code_in f.now spot) out.old }
{
    let header = spot.header;
    let o = code_item::code_at(
        header::up_to_end(f, header),
        header::plain_frame(header),
        spot.place as usize,
    )?;
    let head = o.head;
    units_into(f, spot, head.units, out)
}

// Its units in a lent output: how many; 19, writing nothing, where the output is shorter.
pub fn units(f: &[u8], c: u32, list: u32, k: u32, out: &mut [u16]) -> Result<Option<usize>, Refusal>
    ensures answer { maybe_count result ≡ method_units f.now c list k (length out.old) }
    ensures content { out.new ≡ units_content f.now c list k out.old }
{
    let Some(spot) = class_readers::method_spot(f, c, list, k)? else {
        return Ok(None);
    };
    units_under(f, spot, out)
}
