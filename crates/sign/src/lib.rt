// A signed size or number as a count, with no overflow at the least number: "Negating the least 32-bit size" is one of document 01's slips.
#![tactic(auto)]

ghost use Rattle.std.specs.Prelude.{◌≡◌};
ghost use Rattle.sign.specs.Magnitude.{magnitude};

pub fn magnitude_of(size: i32) -> u32
    ensures { result ≡ magnitude size }
{
    size.unsigned_abs()
}

// The same of a number of 64 bits.
pub fn magnitude_of_long(number: i64) -> u64
    ensures { result ≡ magnitude number }
{
    number.unsigned_abs()
}
