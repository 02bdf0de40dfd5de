// Lists of types by number: the parameters of a proto and the interfaces of a class. An absent list is empty.
ghost use Rattle.std.specs.Prelude.{◌≡◌};
ghost use Rattle.type_list.specs.Answers.{count_outcome, type_outcome};
ghost use Rattle.table_readers.specs.Lists.{list_type, parameters_in, parameter_count, parameter_in, parameter, interfaces_in, interface_count, interface_in, interface};

use header::Header;
use refusal::Refusal;
use type_list::TypeListJudge;

// Type k of the list at an offset.
fn list_type(f: &[u8], header: Header, at: u32, k: u32) -> Result<u32, Refusal>
    ensures { type_outcome result ≡ list_type f.now header at k }
{
    if 0 < at {
        return type_list::type_at(
            header::up_to_end(f, header),
            TypeListJudge {
                order: header.order,
                types: header.types.count,
                at: at as usize,
            },
            k,
        );
    }
    Err(refusal::not_there())
}

// How many parameters proto n has.
pub fn parameter_count(f: &[u8], n: u32) -> Result<u32, Refusal>
    ensures { count_outcome result ≡ parameter_count f.now n }
{
    let header = header::header_of(f)?;
    parameters_in(f, header, n)
}

fn parameters_in(f: &[u8], header: Header, n: u32) -> Result<u32, Refusal>
    ensures { count_outcome result ≡ parameters_in f.now n header }
{
    let p = super::tables::proto_in(f, header, n)?;
    type_list::list_count(f, header, p.parameters)
}

// The type of parameter k of proto n.
pub fn parameter(f: &[u8], n: u32, k: u32) -> Result<u32, Refusal>
    ensures { type_outcome result ≡ parameter f.now n k }
{
    let header = header::header_of(f)?;
    parameter_in(f, header, n, k)
}

fn parameter_in(f: &[u8], header: Header, n: u32, k: u32) -> Result<u32, Refusal>
    ensures { type_outcome result ≡ parameter_in f.now n k header }
{
    let p = super::tables::proto_in(f, header, n)?;
    list_type(f, header, p.parameters, k)
}

// How many interfaces class n has.
pub fn interface_count(f: &[u8], n: u32) -> Result<u32, Refusal>
    ensures { count_outcome result ≡ interface_count f.now n }
{
    let header = header::header_of(f)?;
    interfaces_in(f, header, n)
}

fn interfaces_in(f: &[u8], header: Header, n: u32) -> Result<u32, Refusal>
    ensures { count_outcome result ≡ interfaces_in f.now n header }
{
    let c = super::tables::class_in(f, header, n)?;
    type_list::list_count(f, header, c.interfaces)
}

// The type of interface k of class n.
pub fn interface(f: &[u8], n: u32, k: u32) -> Result<u32, Refusal>
    ensures { type_outcome result ≡ interface f.now n k }
{
    let header = header::header_of(f)?;
    interface_in(f, header, n, k)
}

fn interface_in(f: &[u8], header: Header, n: u32, k: u32) -> Result<u32, Refusal>
    ensures { type_outcome result ≡ interface_in f.now n k header }
{
    let c = super::tables::class_in(f, header, n)?;
    list_type(f, header, c.interfaces, k)
}
