// The order of two texts, as their bytes tell it: proofs/ByUnits shows that it is the order by 16-bit units.
#![tactic(auto)]

ghost use Rattle.std.specs.Prelude.{◌≡◌};
ghost use Rattle.text_order.specs.Order.{key, earlier, by_key};

use std::cmp::Ordering;

// What a byte counts as in the order of texts: c0 before every other.
fn key_of(b: u8) -> u32
    ensures { result ≡ key b }
{
    if b == 0xc0 {
        return 0;
    }
    b as u32 + 1
}

// Which of two bytes that differ comes first. Not `cmp`: of equal bytes it says Equal, and `earlier` says Greater.
fn earlier_of(a: u8, b: u8) -> Ordering
    ensures { result ≡ earlier a b }
{
    if key_of(a) < key_of(b) {
        return Ordering::Less;
    }
    Ordering::Greater
}

// The order of two texts, by their bytes: the first in which they differ decides.
pub fn compare(a: &[u8], b: &[u8]) -> Ordering
    ensures { result ≡ by_key a.now b.now }
{
    for (x, y) in a.iter().zip(b) {
        if x != y {
            return earlier_of(*x, *y);
        }
    }
    a.len().cmp(&b.len())
}
