// The map list: its entries' rules, all 16 at the map's offset, and where the method handles are.
#![tactic(auto)]

ghost use Rattle.std.specs.Prelude.{◌≡◌, ◌+◌, ◌*◌, ◌≤◌, length};
ghost use Rattle.map_list.specs.Codes.{map_code_number};
ghost use Rattle.map_list.specs.Map.{entry_at, entry_number, handles_allowed, entry_allowed, next_allowed, handles_of, scan_at, kept_list_at, kept_at};
ghost use Rattle.map_list.specs.Answers.{handles_outcome, map_outcome};

use header::{Header, Table};
use refusal::Refusal;
use word::Endian;

// The type codes are one fixed table.
const CODES: [u16; 21] = [
    0x0000, 0x0001, 0x0002, 0x0003, 0x0004, 0x0005, 0x0006, 0x0007, 0x0008, 0x1000, 0x1001, 0x1002,
    0x1003, 0x2000, 0x2001, 0x2002, 0x2003, 0x2004, 0x2005, 0x2006, 0xf000,
];

#[derive(Clone, Copy)]
pub struct MapEntry {
    pub kind: u16,
    pub size: u32,
    pub offset: u32,
}

// How many entries, and the table of method handles.
#[derive(Clone, Copy)]
pub struct MapList {
    pub count: u32,
    pub handles: Table,
}

// What entries are judged by: the file's length, and the map's own place.
#[derive(Clone, Copy)]
pub struct MapJudge {
    pub order: Endian,
    pub version: u32,
    pub length: usize,
    pub at: usize,
}

// The number of a code in the table, 21 where it is not there.
fn code_of(kind: u16) -> usize
    ensures { result ≡ map_code_number kind }
{
    for (i, code) in CODES.iter().enumerate() {
        if *code == kind {
            return i;
        }
    }
    CODES.len()
}

// The entry at a place.
fn entry_at(s: &[u8], order: Endian, at: usize) -> MapEntry
    ensures { result ≡ entry_at order s.now at }
{
    if s.len() <= at {
        return MapEntry {
            kind: 0,
            size: 0,
            offset: 0,
        };
    }
    MapEntry {
        kind: word::u16_at(s, at, order),
        size: word::u32_at(s, at + 4, order),
        offset: word::u32_at(s, at + 8, order),
    }
}

// Entry k of the map.
pub fn entry_number(f: &[u8], header: Header, k: u32) -> MapEntry
    ensures { result ≡ entry_number f.now header k }
{
    let s = header::up_to_end(f, header);
    if s.len() <= header.map {
        return MapEntry {
            kind: 0,
            size: 0,
            offset: 0,
        };
    }
    entry_at(s, header.order, header.map + 4 + 12 * k as usize)
}

// May the method handles lie there: 8 bytes each, also where there are none.
fn are_handles_allowed(length: usize, size: u32, offset: u32) -> bool
    ensures { result ≡ handles_allowed length size offset }
{
    if offset < 112 {
        return false;
    }
    if offset % 4 != 0 {
        return false;
    }
    offset as usize + 8 * size as usize <= length
}

// The rules of an entry by itself, but for its code.
fn is_entry_allowed(version: u32, length: usize, e: MapEntry) -> bool
    ensures { result ≡ entry_allowed version length e }
{
    match e.kind {
        7 => 38 <= version,
        8 => {
            if version < 38 {
                return false;
            }
            are_handles_allowed(length, e.size, e.offset)
        }
        _ => true,
    }
}

// The rules of an entry after others: its offset is at least `floor`, and its code was not seen.
fn is_next_allowed(j: MapJudge, e: MapEntry, floor: u64, seen: u8) -> bool
    ensures { result ≡ next_allowed j e floor seen }
{
    if (e.offset as u64) < floor {
        return false;
    }
    if seen != 0 {
        return false;
    }
    is_entry_allowed(j.version, j.length, e)
}

// The method handles that an entry gives, or else those that were given before.
fn handles_of(e: MapEntry, before: Table) -> Table
    ensures { result ≡ handles_of e before }
{
    match e.kind {
        8 => Table {
            count: e.size,
            offset: e.offset,
        },
        _ => before,
    }
}

// The entries from a place on, which all lie within the slice.
fn scan(s: &[u8], j: MapJudge, from: usize, count: u32) -> Result<Table, Refusal>
    requires { from + 12 * count ≤ length s.now }
    ensures { handles_outcome result ≡ scan_at s.now j from count }
{
    let mut seen = [0u8; 21];
    let mut handles = Table {
        count: 0,
        offset: 0,
    };
    let mut place = from;
    let mut floor: u64 = 0;
    for _ in 0..count {
        let e = entry_at(s, j.order, place);
        let number = code_of(e.kind);
        if 21 <= number {
            return Err(refusal::wrong_map(j.at));
        }
        if !is_next_allowed(j, e, floor, seen[number]) {
            return Err(refusal::wrong_map(j.at));
        }
        seen[number] = 1;
        handles = handles_of(e, handles);
        floor = e.offset as u64 + 1;
        place += 12;
    }
    Ok(handles)
}

// The list at the map's offset: its length first, then its entries.
fn list_at(s: &[u8], j: MapJudge) -> Result<MapList, Refusal>
    ensures { map_outcome result ≡ kept_list_at s.now j }
{
    let count = frame::counted(s, j.order, j.at, 12)?;
    let handles = scan(s, j, j.at + 4, count)?;
    Ok(MapList { count, handles })
}

// The map of a file with this header: 8 for its own offset, 9, and then 16.
pub fn map_of(f: &[u8], header: Header) -> Result<MapList, Refusal>
    ensures { map_outcome result ≡ kept_at f.now header }
{
    let s = header::up_to_end(f, header);
    if frame::is_allowed(header.start, s.len(), true, header.map) {
        return list_at(
            s,
            MapJudge {
                order: header.order,
                version: header.version,
                length: f.len(),
                at: header.map,
            },
        );
    }
    Err(refusal::wrong_offset(0))
}
