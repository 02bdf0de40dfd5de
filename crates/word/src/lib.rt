// Bytes and words at a place of a file, in either byte order. Each reading is total: past the end a byte reads as 0.
#![tactic(auto)]

ghost use Rattle.std.specs.Prelude.{◌≡◌, ◌+◌, ◌*◌, get_or, leb};
ghost use Rattle.word.specs.Bytes.{part};
ghost use Rattle.word.specs.Words.{u16_of, u32_of, u16_at, u32_at};

// The order in which a file holds the bytes of a word.
#[derive(Clone, Copy)]
pub enum Endian {
    Little,
    Big,
}

// The byte at a place.
pub fn byte_at(slice: &[u8], at: usize) -> u8
    ensures { result ≡ get_or slice.now at 0 }
{
    if at < slice.len() {
        return slice[at];
    }
    0
}

// Do n bytes fit from a place on.
pub fn has_room(len: usize, at: usize, n: usize) -> bool
    ensures { result ≡ leb (at + n) len }
{
    if len < at {
        return false;
    }
    n <= len - at
}

// The bytes that lie at a place, none where the slice ends before them.
pub fn bytes_at(slice: &[u8], start: usize, length: usize) -> &[u8]
    ensures { result.now ≡ part slice.now start length }
{
    if slice.len() < start {
        return &slice[0..0];
    }
    if slice.len() - start < length {
        return &slice[0..0];
    }
    let end = start + length;
    &slice[start..end]
}

// Two and four bytes each have their functions: a trait of the two widths would carry five members for two types, and be no plainer.

// Two bytes as one number.
fn u16_of(order: Endian, a: u8, b: u8) -> u16
    ensures { result ≡ u16_of order a b }
{
    match order {
        Endian::Little => u16::from_le_bytes([a, b]),
        Endian::Big => u16::from_be_bytes([a, b]),
    }
}

// Four bytes as one number.
fn u32_of(order: Endian, a: u8, b: u8, c: u8, d: u8) -> u32
    ensures { result ≡ u32_of order a b c d }
{
    match order {
        Endian::Little => u32::from_le_bytes([a, b, c, d]),
        Endian::Big => u32::from_be_bytes([a, b, c, d]),
    }
}

// The two bytes at a place as one number, each looked for by itself.
fn u16_by_bytes(slice: &[u8], at: usize, order: Endian) -> u16
    ensures { result ≡ u16_at order slice.now at }
{
    if slice.len() <= at {
        return 0;
    }
    u16_of(order, slice[at], byte_at(slice, at + 1))
}

// The four bytes at a place as one number, each looked for by itself.
fn u32_by_bytes(slice: &[u8], at: usize, order: Endian) -> u32
    ensures { result ≡ u32_at order slice.now at }
{
    if slice.len() <= at {
        return 0;
    }
    u32_of(
        order,
        slice[at],
        byte_at(slice, at + 1),
        byte_at(slice, at + 2),
        byte_at(slice, at + 3),
    )
}

// The two bytes at a place as one number. Most words lie inside: there one test serves both bytes and they are one load. The order is asked for
// before any byte is read, or the compiler does not join the reads.
pub fn u16_at(slice: &[u8], at: usize, order: Endian) -> u16
    ensures { result ≡ u16_at order slice.now at }
{
    if 2 <= slice.len() {
        if at <= slice.len() - 2 {
            return match order {
                Endian::Little => u16::from_le_bytes([slice[at], slice[at + 1]]),
                Endian::Big => u16::from_be_bytes([slice[at], slice[at + 1]]),
            };
        }
    }
    u16_by_bytes(slice, at, order)
}

// The four bytes at a place as one number. Here one test serves in the low order alone, which most files have.
pub fn u32_at(slice: &[u8], at: usize, order: Endian) -> u32
    ensures { result ≡ u32_at order slice.now at }
{
    match order {
        Endian::Big => u32_by_bytes(slice, at, order),
        Endian::Little => {
            if 4 <= slice.len() {
                if at <= slice.len() - 4 {
                    return u32::from_le_bytes([
                        slice[at],
                        slice[at + 1],
                        slice[at + 2],
                        slice[at + 3],
                    ]);
                }
            }
            u32_by_bytes(slice, at, order)
        }
    }
}
