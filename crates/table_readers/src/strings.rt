// Strings by number, and the lookup.
ghost use Rattle.std.specs.Prelude.{◌≡◌};
ghost use Rattle.text.specs.Answers.{text_outcome};
ghost use Rattle.string_ids.specs.Answers.{lookup_outcome};
ghost use Rattle.table_readers.specs.Strings.{string_in, string_extent_of, bytes_of, string_number, find_string};

use header::Header;
use refusal::Refusal;
use text::TextPlace;

// Where the text of string n lies, and how many units it has.
pub fn string(f: &[u8], n: u32) -> Result<TextPlace, Refusal>
    ensures { text_outcome result ≡ string_extent_of f.now n }
{
    let header = header::header_of(f)?;
    string_in(f, header, n)
}

fn string_in(f: &[u8], header: Header, n: u32) -> Result<TextPlace, Refusal>
    ensures { text_outcome result ≡ string_in f.now n header }
{
    let strings = header.strings;
    if n < strings.count {
        return string_ids::string_at(f, header, n);
    }
    Err(refusal::not_there())
}

// The bytes of string n, none where it is refused.
pub fn string_bytes(f: &[u8], n: u32) -> &[u8]
    ensures { result.now ≡ bytes_of (string_number f.now n) }
{
    match string(f, n) {
        Ok(TextPlace { start, length, .. }) => word::bytes_at(f, start, length),
        Err(_) => &f[0..0],
    }
}

// The number of the string that has those bytes, or none.
pub fn find_string(f: &[u8], text: &[u8]) -> Result<Option<u32>, Refusal>
    ensures { lookup_outcome result ≡ find_string f.now text.now }
{
    let header = header::header_of(f)?;
    string_ids::look_up(f, header, text)
}
