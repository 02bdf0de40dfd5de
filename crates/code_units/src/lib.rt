// The units of a code item, handed out as 16-bit units into a lent output.
#![tactic(auto)]

ghost use Rattle.std.specs.Prelude.{◌≡◌, ◌+◌, ◌*◌, ◌≤◌, length};
ghost use Rattle.code_units.specs.Units.{units_at, filled, into_at, left_at};
ghost use Rattle.code_units.specs.Answers.{units_outcome};

use refusal::Refusal;
use word::Endian;

// The writing, where the units are known to be there and to fit.
fn fill(s: &[u8], order: Endian, start: usize, count: u32, out: &mut [u16])
    requires { (start + 2 * count ≤ length s.now) × (count ≤ length out.old) }
    ensures { out.new ≡ filled (units_at order s.now start count) out.old }
{
    let mut p = start;
    for i in 0..count as usize {
        out[i] = word::u16_at(s, p, order);
        p += 2;
    }
}

// `count` units from `start` on: 9 at `start` where the slice ends before them, 19 where the output is shorter. A refusal writes nothing.
pub fn units_into(
    s: &[u8],
    order: Endian,
    start: usize,
    count: u32,
    out: &mut [u16],
) -> Result<u32, Refusal>
    ensures answer { units_outcome result ≡ into_at (length s.now) start count (length out.old) }
    ensures wrote { out.new ≡ left_at order s.now start count out.old }
{
    if s.len() < start {
        return Err(refusal::runs_past(start));
    }
    if s.len() - start < 2 * count as usize {
        return Err(refusal::runs_past(start));
    }
    if out.len() < count as usize {
        return Err(refusal::no_room());
    }
    fill(s, order, start, count, out);
    Ok(count)
}
