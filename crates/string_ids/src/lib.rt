// The string table: its records, the texts that they name, and their order.
#![tactic(auto)]

ghost use Rattle.std.specs.Prelude.{◌≡◌};
ghost use Rattle.text.specs.Answers.{text_outcome};
ghost use Rattle.string_ids.specs.Strings.{string_place, record_at, string_extent, less_bytes, strings_checked, looked_up};
ghost use Rattle.refusal.specs.Rows.{follows};
ghost use Rattle.refusal.specs.Answers.{checked_outcome};
ghost use Rattle.refusal.specs.Seek.{or_this};
ghost use Rattle.word.specs.Bytes.{part};
ghost use Rattle.text_order.specs.Order.{by_key, is_equal};
ghost use Rattle.string_ids.specs.Answers.{item_outcome, last_bytes, lookup_outcome, found_number};

use header::Header;
use refusal::Refusal;
use text::TextPlace;

// Where the last text's bytes lie, if there is one.
#[derive(Clone, Copy)]
pub struct Last {
    pub start: usize,
    pub length: usize,
}

// Where the record of string n is.
fn place_of(header: Header, n: u32) -> usize
    ensures { result ≡ string_place header n }
{
    header.strings.offset as usize + 4 * n as usize
}

// Where the item of string n is: 8 at the record.
fn record_at(f: &[u8], header: Header, n: u32) -> Result<usize, Refusal>
    ensures { item_outcome result ≡ record_at f.now header n }
{
    let place = place_of(header, n);
    let offset = word::u32_at(f, place, header.order) as usize;
    if frame::is_allowed(header.start, header.end, false, offset) {
        return Ok(offset);
    }
    Err(refusal::wrong_offset(place))
}

// String n: its record, then its item.
pub fn string_at(f: &[u8], header: Header, n: u32) -> Result<TextPlace, Refusal>
    ensures { text_outcome result ≡ string_extent f.now header n }
{
    let item = record_at(f, header, n)?;
    text::string_at(header::up_to_end(f, header), item)
}

// Does the text that lies there come after the last one.
fn rises(s: &[u8], last: Option<Last>, start: usize, length: usize) -> bool
    ensures { result ≡ follows less_bytes (last_bytes s.now last) (part s.now start length) }
{
    match last {
        None => true,
        Some(l) => text_order::compare(
            word::bytes_at(s, l.start, l.length),
            word::bytes_at(s, start, length),
        )
        .is_lt(),
    }
}

// The number that was found before, or else k where the bytes are the text.
fn found_with(found: Option<u32>, bytes: &[u8], text: &[u8], k: u32) -> Option<u32>
    ensures { found_number result ≡ or_this (found_number found) (is_equal (by_key bytes.now text.now)) k }
{
    match found {
        Some(j) => Some(j),
        None if text_order::compare(bytes, text).is_eq() => Some(k),
        None => None,
    }
}

// All strings in turn, each by its own rules and then by its order.
pub fn check_strings(f: &[u8], header: Header) -> Result<(), Refusal>
    ensures { checked_outcome result ≡ strings_checked f.now header }
{
    let s = header::up_to_end(f, header);
    let mut last = None;
    for n in 0..header.strings.count {
        let TextPlace { start, length, .. } = string_at(f, header, n)?;
        if !rises(s, last, start, length) {
            return Err(refusal::out_of_order(place_of(header, n)));
        }
        last = Some(Last { start, length });
    }
    Ok(())
}

// The same going over, with the number of the string that is the text: one pass. A step shared by both loops cost 4 to 9 % (docs/DECISIONS.md).
pub fn look_up(f: &[u8], header: Header, text: &[u8]) -> Result<Option<u32>, Refusal>
    ensures { lookup_outcome result ≡ looked_up f.now header text.now }
{
    let s = header::up_to_end(f, header);
    let mut last = None;
    let mut found = None;
    for k in 0..header.strings.count {
        let TextPlace { start, length, .. } = string_at(f, header, k)?;
        if !rises(s, last, start, length) {
            return Err(refusal::out_of_order(place_of(header, k)));
        }
        found = found_with(found, word::bytes_at(s, start, length), text, k);
        last = Some(Last { start, length });
    }
    Ok(found)
}
