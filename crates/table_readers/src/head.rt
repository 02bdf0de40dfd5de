// What the header and the map say.
ghost use Rattle.std.specs.Prelude.{◌≡◌};
ghost use Rattle.header.specs.Header.{header_at};
ghost use Rattle.header.specs.Answers.{header_outcome};
ghost use Rattle.table_readers.specs.Head.{signature_of, map_count, map_entry_in, map_entry, handle_count, mapped_at, opened_at};
ghost use Rattle.table_readers.specs.Answers.{count_outcome, entry_outcome, opened_outcome};

use super::Opened;
use header::Header;
use map_list::MapEntry;
use refusal::Refusal;

pub fn header(f: &[u8]) -> Result<Header, Refusal>
    ensures { header_outcome result ≡ header_at f.now }
{
    header::header_of(f)
}

// The 20 bytes of the signature, none where the header is refused.
pub fn signature(f: &[u8]) -> &[u8]
    ensures { result.now ≡ signature_of f.now }
{
    match header::header_of(f) {
        Ok(_) => word::bytes_at(f, 12, 20),
        Err(_) => &f[0..0],
    }
}

pub fn map_count(f: &[u8]) -> Result<u32, Refusal>
    ensures { count_outcome result ≡ map_count f.now }
{
    let header = header::header_of(f)?;
    let m = map_list::map_of(f, header)?;
    Ok(m.count)
}

// Entry k of the map.
pub fn map_entry(f: &[u8], k: u32) -> Result<MapEntry, Refusal>
    ensures { entry_outcome result ≡ map_entry f.now k }
{
    let header = header::header_of(f)?;
    map_entry_in(f, header, k)
}

fn map_entry_in(f: &[u8], header: Header, k: u32) -> Result<MapEntry, Refusal>
    ensures { entry_outcome result ≡ map_entry_in f.now k header }
{
    let m = map_list::map_of(f, header)?;
    if k < m.count {
        return Ok(map_list::entry_number(f, header, k));
    }
    Err(refusal::not_there())
}

pub fn handle_count(f: &[u8]) -> Result<u32, Refusal>
    ensures { count_outcome result ≡ handle_count f.now }
{
    let header = header::header_of(f)?;
    let m = map_list::map_of(f, header)?;
    Ok(m.handles.count)
}

fn mapped(f: &[u8], header: Header) -> Result<Opened, Refusal>
    ensures { opened_outcome result ≡ mapped_at f.now header }
{
    let m = map_list::map_of(f, header)?;
    Ok(Opened {
        header,
        handles: m.handles.count,
    })
}

// The header, and how many method handles the map gives.
pub fn open(f: &[u8]) -> Result<Opened, Refusal>
    ensures { opened_outcome result ≡ opened_at f.now }
{
    let header = header::header_of(f)?;
    mapped(f, header)
}
