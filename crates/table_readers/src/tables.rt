// Records by number: header, 7 for the number, the record's own rules.
ghost use Rattle.std.specs.Prelude.{◌≡◌};
ghost use Rattle.ids.specs.Answers.{index_outcome, proto_outcome, member_id_outcome, handle_outcome};
ghost use Rattle.class_ids.specs.Answers.{class_outcome};
ghost use Rattle.table_readers.specs.Tables.{type_in, type_name, proto_in, proto_number, field_in, field_number, method_in, method_number, handle_in, handle_under, handle_number, class_in, class_number};

use class_ids::Class;
use header::Header;
use ids::{Handle, MemberId, Proto};
use map_list::MapList;
use refusal::Refusal;

// The string of type n.
pub fn type_name(f: &[u8], n: u32) -> Result<u32, Refusal>
    ensures { index_outcome result ≡ type_name f.now n }
{
    let header = header::header_of(f)?;
    type_in(f, header, n)
}

fn type_in(f: &[u8], header: Header, n: u32) -> Result<u32, Refusal>
    ensures { index_outcome result ≡ type_in f.now n header }
{
    let t = header.types;
    if n < t.count {
        return ids::type_at(f, header::plain_frame(header), t.offset, n);
    }
    Err(refusal::not_there())
}

// Proto n.
pub fn proto(f: &[u8], n: u32) -> Result<Proto, Refusal>
    ensures { proto_outcome result ≡ proto_number f.now n }
{
    let header = header::header_of(f)?;
    proto_in(f, header, n)
}

pub fn proto_in(f: &[u8], header: Header, n: u32) -> Result<Proto, Refusal>
    ensures { proto_outcome result ≡ proto_in f.now n header }
{
    let t = header.protos;
    if n < t.count {
        return ids::proto_at(f, header::plain_frame(header), header.end, t.offset, n);
    }
    Err(refusal::not_there())
}

// Field n.
pub fn field(f: &[u8], n: u32) -> Result<MemberId, Refusal>
    ensures { member_id_outcome result ≡ field_number f.now n }
{
    let header = header::header_of(f)?;
    field_in(f, header, n)
}

fn field_in(f: &[u8], header: Header, n: u32) -> Result<MemberId, Refusal>
    ensures { member_id_outcome result ≡ field_in f.now n header }
{
    let t = header.fields;
    let types = header.types;
    if n < t.count {
        return ids::member_at(f, header::plain_frame(header), types.count, t.offset, n);
    }
    Err(refusal::not_there())
}

// Method n.
pub fn method(f: &[u8], n: u32) -> Result<MemberId, Refusal>
    ensures { member_id_outcome result ≡ method_number f.now n }
{
    let header = header::header_of(f)?;
    method_in(f, header, n)
}

fn method_in(f: &[u8], header: Header, n: u32) -> Result<MemberId, Refusal>
    ensures { member_id_outcome result ≡ method_in f.now n header }
{
    let t = header.methods;
    let protos = header.protos;
    if n < t.count {
        return ids::member_at(f, header::plain_frame(header), protos.count, t.offset, n);
    }
    Err(refusal::not_there())
}

// Class n.
pub fn class(f: &[u8], n: u32) -> Result<Class, Refusal>
    ensures { class_outcome result ≡ class_number f.now n }
{
    let header = header::header_of(f)?;
    class_in(f, header, n)
}

pub fn class_in(f: &[u8], header: Header, n: u32) -> Result<Class, Refusal>
    ensures { class_outcome result ≡ class_in f.now n header }
{
    let t = header.classes;
    if n < t.count {
        return class_ids::class_at(f, header::plain_frame(header), header.end, t.offset, n);
    }
    Err(refusal::not_there())
}

// Method handle n, in the table that the map names.
pub fn handle(f: &[u8], n: u32) -> Result<Handle, Refusal>
    ensures { handle_outcome result ≡ handle_number f.now n }
{
    let header = header::header_of(f)?;
    handle_in(f, header, n)
}

fn handle_in(f: &[u8], header: Header, n: u32) -> Result<Handle, Refusal>
    ensures { handle_outcome result ≡ handle_in f.now n header }
{
    let m = map_list::map_of(f, header)?;
    handle_under(f, header, m, n)
}

fn handle_under(f: &[u8], header: Header, m: MapList, n: u32) -> Result<Handle, Refusal>
    ensures { handle_outcome result ≡ handle_under f.now n header m }
{
    let t = m.handles;
    if n < t.count {
        return ids::handle_at(f, header::frame_of(header, t.count), t.offset, n);
    }
    Err(refusal::not_there())
}
