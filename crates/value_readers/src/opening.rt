// What the readers begin with: the file opened for a place, and what an item that holds values is read against.
ghost use Rattle.std.specs.Prelude.{◌≡◌};
ghost use Rattle.table_readers.specs.Answers.{opened_outcome};
ghost use Rattle.value_readers.specs.Opening.{walk_in, opened_within};

use header::Header;
use refusal::Refusal;
use table_readers::Opened;
use value_heads::Walk;

// The file opened, 7 for a place outside its data section. Bodies and annotation items need no alignment.
pub fn open_within(f: &[u8], place: usize) -> Result<Opened, Refusal>
    ensures { opened_outcome result ≡ opened_within f.now place }
{
    let o = table_readers::open(f)?;
    if frame::is_allowed(o.header.start, o.header.end, false, place) {
        return Ok(o);
    }
    Err(refusal::not_there())
}

// What the item at a place is read against.
pub fn walk_in(header: Header, handles: u32, item: usize) -> Walk
    ensures { result ≡ walk_in header handles item }
{
    value_heads::walk_of(header::frame_of(header, handles), item)
}
