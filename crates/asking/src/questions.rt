// A question's bytes, as numbers.
ghost use Rattle.std.specs.Prelude.{◌≡◌};
ghost use Rattle.word.specs.Bytes.{part};
ghost use Rattle.asking.specs.Questions.{number_at, question_of};

use super::Question;
use word::Endian;

// The number at a place: one byte, two or four.
fn number_at(bytes: &[u8], at: usize, width: usize) -> u32
    ensures { result ≡ number_at width bytes.now at }
{
    if width == 1 {
        return word::byte_at(bytes, at) as u32;
    }
    if width == 2 {
        return word::u16_at(bytes, at, Endian::Little) as u32;
    }
    word::u32_at(bytes, at, Endian::Little)
}

// The question that a slice begins with.
pub fn question_of(bytes: &[u8]) -> Question
    ensures { result ≡ question_of bytes.now }
{
    let width = word::byte_at(bytes, 4);
    let w = width as usize;
    Question {
        reader: word::byte_at(bytes, 0),
        mask: word::u16_at(bytes, 1, Endian::Little) as u32
            + 65536 * word::byte_at(bytes, 3) as u32,
        a: number_at(bytes, 6, w),
        b: number_at(bytes, 6 + w, w),
        c: number_at(bytes, 6 + 2 * w, w),
        d: number_at(bytes, 6 + 3 * w, w),
        e: number_at(bytes, 6 + 4 * w, w),
        size: 6 + 5 * width as u16,
        more: word::byte_at(bytes, 5),
    }
}

// What comes behind its numbers: a path or a text.
pub fn rest_of(bytes: &[u8], q: Question) -> &[u8]
    ensures { result.now ≡ part bytes.now q.size q.more }
{
    word::bytes_at(bytes, q.size as usize, q.more as usize)
}
