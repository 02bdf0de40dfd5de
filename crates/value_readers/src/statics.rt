// The static values of a class.
ghost use Rattle.std.specs.Prelude.{◌≡◌};
ghost use Rattle.value_bodies.specs.Answers.{count_outcome, picked_outcome};
ghost use Rattle.value_readers.specs.Statics.{values_in, values_under, static_count, static_value_in, value_under, static_value};

use decoded_value::Value;
use header::Header;
use refusal::Refusal;

// How many values the array of a class has, 0 where it is absent.
pub fn values_in(f: &[u8], header: Header, handles: u32, at: u32) -> Result<u32, Refusal>
    ensures { count_outcome result ≡ values_in f.now header handles at }
{
    let place = at as usize;
    if 0 < at {
        return value_bodies::array_count(
            header::up_to_end(f, header),
            super::opening::walk_in(header, handles, place),
            place,
        );
    }
    Ok(0)
}

fn values_under(f: &[u8], header: Header, handles: u32, c: u32) -> Result<u32, Refusal>
    ensures { count_outcome result ≡ values_under f.now c header handles }
{
    let found = table_readers::class_in(f, header, c)?;
    values_in(f, header, handles, found.values)
}

// How many static values class c has.
pub fn static_value_count(f: &[u8], c: u32) -> Result<u32, Refusal>
    ensures { count_outcome result ≡ static_count f.now c }
{
    let o = table_readers::open(f)?;
    values_under(f, o.header, o.handles, c)
}

// Value k of the array of a class.
pub fn value_in(f: &[u8], header: Header, handles: u32, at: u32, k: u32) -> Result<Value, Refusal>
    ensures { picked_outcome result ≡ static_value_in f.now header handles at k }
{
    let place = at as usize;
    if 0 < at {
        return value_bodies::array_value(
            header::up_to_end(f, header),
            super::opening::walk_in(header, handles, place),
            place,
            k,
        );
    }
    Err(refusal::not_there())
}

fn value_under(f: &[u8], header: Header, handles: u32, c: u32, k: u32) -> Result<Value, Refusal>
    ensures { picked_outcome result ≡ value_under f.now c k header handles }
{
    let found = table_readers::class_in(f, header, c)?;
    value_in(f, header, handles, found.values, k)
}

// Static value k of class c.
pub fn static_value(f: &[u8], c: u32, k: u32) -> Result<Value, Refusal>
    ensures { picked_outcome result ≡ static_value f.now c k }
{
    let o = table_readers::open(f)?;
    value_under(f, o.header, o.handles, c, k)
}
