// Header, map, records, texts and lists of types.

ghost use Rattle.std.specs.Prelude.{◌≡◌, length};
ghost use Rattle.header.specs.Header.{header_at};
ghost use Rattle.table_readers.specs.Head.{map_count, map_entry, handle_count};
ghost use Rattle.table_readers.specs.Strings.{string_extent_of, find_string};
ghost use Rattle.table_readers.specs.Tables.{type_name, proto_number, field_number, method_number, handle_number, class_number};
ghost use Rattle.table_readers.specs.Lists.{parameter_count, parameter, interface_count, interface};
ghost use Rattle.table_readers.specs.Flags.{class_flags, class_content};
ghost use Rattle.answer_rows.specs.Words.{told, told_if, number_words, header_words, signature_words, entry_words, handle_words, text_words};
ghost use Rattle.answer_rows.specs.Words.{proto_words, member_words, class_words};

#[unsafe(no_mangle)]
pub extern "C" fn dralovika_header(f: &[u8], out: &mut [u64; 20])
    ensures { out.new ≡ told header_words (header_at f.now) }
{
    *out = answer_rows::header_row(dex::header(f));
}

// Where the signature's 20 bytes are.
#[unsafe(no_mangle)]
pub extern "C" fn dralovika_signature(f: &[u8], out: &mut [u64; 20])
    ensures { out.new ≡ told signature_words (header_at f.now) }
{
    *out = answer_rows::signature_row(dex::header(f));
}

#[unsafe(no_mangle)]
pub extern "C" fn dralovika_map_count(f: &[u8], out: &mut [u64; 20])
    ensures { out.new ≡ told number_words (map_count f.now) }
{
    *out = answer_rows::number_row(dex::map_count(f));
}

// Entry k of the map.
#[unsafe(no_mangle)]
pub extern "C" fn dralovika_map_entry(f: &[u8], k: u32, out: &mut [u64; 20])
    ensures { out.new ≡ told entry_words (map_entry f.now k) }
{
    *out = answer_rows::entry_row(dex::map_entry(f, k));
}

#[unsafe(no_mangle)]
pub extern "C" fn dralovika_handle_count(f: &[u8], out: &mut [u64; 20])
    ensures { out.new ≡ told number_words (handle_count f.now) }
{
    *out = answer_rows::number_row(dex::handle_count(f));
}

#[unsafe(no_mangle)]
pub extern "C" fn dralovika_handle(f: &[u8], n: u32, out: &mut [u64; 20])
    ensures { out.new ≡ told handle_words (handle_number f.now n) }
{
    *out = answer_rows::handle_row(dex::handle(f, n));
}

// Where the text of string n is, and how many units it has.
#[unsafe(no_mangle)]
pub extern "C" fn dralovika_string(f: &[u8], n: u32, out: &mut [u64; 20])
    ensures { out.new ≡ told text_words (string_extent_of f.now n) }
{
    *out = answer_rows::text_row(dex::string(f, n));
}

// The number of the string that has those bytes, or none.
#[unsafe(no_mangle)]
pub extern "C" fn dralovika_find_string(f: &[u8], text: &[u8], out: &mut [u64; 20])
    ensures { out.new ≡ told_if number_words (find_string f.now text.now) }
{
    *out = answer_rows::number_if_row(dex::find_string(f, text));
}

// The string of type n.
#[unsafe(no_mangle)]
pub extern "C" fn dralovika_type_name(f: &[u8], n: u32, out: &mut [u64; 20])
    ensures { out.new ≡ told number_words (type_name f.now n) }
{
    *out = answer_rows::number_row(dex::type_name(f, n));
}

#[unsafe(no_mangle)]
pub extern "C" fn dralovika_proto(f: &[u8], n: u32, out: &mut [u64; 20])
    ensures { out.new ≡ told proto_words (proto_number f.now n) }
{
    *out = answer_rows::proto_row(dex::proto(f, n));
}

#[unsafe(no_mangle)]
pub extern "C" fn dralovika_parameter_count(f: &[u8], n: u32, out: &mut [u64; 20])
    ensures { out.new ≡ told number_words (parameter_count f.now n) }
{
    *out = answer_rows::number_row(dex::parameter_count(f, n));
}

// The type of parameter k of proto n.
#[unsafe(no_mangle)]
pub extern "C" fn dralovika_parameter(f: &[u8], n: u32, k: u32, out: &mut [u64; 20])
    ensures { out.new ≡ told number_words (parameter f.now n k) }
{
    *out = answer_rows::number_row(dex::parameter(f, n, k));
}

#[unsafe(no_mangle)]
pub extern "C" fn dralovika_field(f: &[u8], n: u32, out: &mut [u64; 20])
    ensures { out.new ≡ told member_words (field_number f.now n) }
{
    *out = answer_rows::member_row(dex::field(f, n));
}

#[unsafe(no_mangle)]
pub extern "C" fn dralovika_method(f: &[u8], n: u32, out: &mut [u64; 20])
    ensures { out.new ≡ told member_words (method_number f.now n) }
{
    *out = answer_rows::member_row(dex::method(f, n));
}

#[unsafe(no_mangle)]
pub extern "C" fn dralovika_class(f: &[u8], n: u32, out: &mut [u64; 20])
    ensures { out.new ≡ told class_words (class_number f.now n) }
{
    *out = answer_rows::class_row(dex::class(f, n));
}

#[unsafe(no_mangle)]
pub extern "C" fn dralovika_interface_count(f: &[u8], n: u32, out: &mut [u64; 20])
    ensures { out.new ≡ told number_words (interface_count f.now n) }
{
    *out = answer_rows::number_row(dex::interface_count(f, n));
}

// The type of interface k of class n.
#[unsafe(no_mangle)]
pub extern "C" fn dralovika_interface(f: &[u8], n: u32, k: u32, out: &mut [u64; 20])
    ensures { out.new ≡ told number_words (interface f.now n k) }
{
    *out = answer_rows::number_row(dex::interface(f, n, k));
}

// The flags of class n as bit numbers in a second output, and how many.
#[unsafe(no_mangle)]
pub extern "C" fn dralovika_class_flags(f: &[u8], n: u32, flags: &mut [u8], out: &mut [u64; 20])
    ensures answer { out.new ≡ told number_words (class_flags f.now n (length flags.old)) }
    ensures content { flags.new ≡ class_content f.now n flags.old }
{
    *out = answer_rows::flags_row(dex::class_flags(f, n, flags));
}
