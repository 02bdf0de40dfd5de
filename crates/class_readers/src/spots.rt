// Where class data, code and debug information lie: what the readers begin with.
ghost use Rattle.std.specs.Prelude.{◌≡◌};
ghost use Rattle.class_readers.specs.Spots.{spot_at, data_in, data_spot, method_under, method_spot, debug_under, debug_spot};
ghost use Rattle.class_readers.specs.Answers.{spot_outcome};

use super::Spot;
use header::Header;
use refusal::Refusal;

// An offset of 0 means absent.
fn spot_of(header: Header, at: u32) -> Result<Option<Spot>, Refusal>
    ensures { spot_outcome result ≡ spot_at header at }
{
    if 0 < at {
        return Ok(Some(Spot {
            header: header,
            place: at,
        }));
    }
    Ok(None)
}

fn data_in(f: &[u8], header: Header, c: u32) -> Result<Option<Spot>, Refusal>
    ensures { spot_outcome result ≡ data_in f.now c header }
{
    let found = table_readers::class_in(f, header, c)?;
    spot_of(header, found.data)
}

// Where the class data of class c lies.
pub fn data_spot(f: &[u8], c: u32) -> Result<Option<Spot>, Refusal>
    ensures { spot_outcome result ≡ data_spot f.now c }
{
    let header = header::header_of(f)?;
    data_in(f, header, c)
}

// Where the code of a member of class data lies: 7 for the member, and for a list of fields.
fn method_under(f: &[u8], spot: Spot, list: u32, k: u32) -> Result<Option<Spot>, Refusal>
    ensures { spot_outcome result ≡ method_under f.now list k spot }
{
    let header = spot.header;
    let m = class_data::member_at(
        header::up_to_end(f, header),
        header::plain_frame(header),
        spot.place as usize,
        list,
        k,
    )?;
    if 2 <= list {
        return spot_of(header, m.code);
    }
    Err(refusal::not_there())
}

// Where the code of method k of a list of class c lies.
pub fn method_spot(f: &[u8], c: u32, list: u32, k: u32) -> Result<Option<Spot>, Refusal>
    ensures { spot_outcome result ≡ method_spot f.now c list k }
{
    let Some(spot) = data_spot(f, c)? else {
        return Ok(None);
    };
    method_under(f, spot, list, k)
}

// Where the debug information of a code item lies, of which the whole is read first.
fn debug_under(f: &[u8], spot: Spot) -> Result<Option<Spot>, Refusal>
    ensures { spot_outcome result ≡ debug_under f.now spot }
{
    let header = spot.header;
    let o = code_item::code_at(
        header::up_to_end(f, header),
        header::plain_frame(header),
        spot.place as usize,
    )?;
    let head = o.head;
    spot_of(header, head.debug)
}

// Where the debug information of method k of a list of class c lies.
pub fn debug_spot(f: &[u8], c: u32, list: u32, k: u32) -> Result<Option<Spot>, Refusal>
    ensures { spot_outcome result ≡ debug_spot f.now c list k }
{
    let Some(spot) = method_spot(f, c, list, k)? else {
        return Ok(None);
    };
    debug_under(f, spot)
}
