// Class data, code and debug information.
ghost use Rattle.std.specs.Prelude.{length, ◌≡◌};
ghost use Rattle.answer_rows.specs.Words.{told_if, number_words, counts_words, found_words, outline_words, try_words, handler_words, pair_words};
ghost use Rattle.answer_rows.specs.Words.{debug_words, option_words};
ghost use Rattle.code_readers.specs.Code.{method_code, method_units, units_content, try_number, covering_try, handler_count, handler_number, handler_pair};
ghost use Rattle.debug_readers.specs.Debug.{method_debug, parameter_name};
ghost use Rattle.class_readers.specs.Members.{class_data, member_number, member_flags, member_content};

#[unsafe(no_mangle)]
pub extern "C" fn dralovika_class_data(f: &[u8], c: u32, out: &mut [u64; 20])
    ensures { out.new ≡ told_if counts_words (class_data f.now c) }
{
    *out = answer_rows::data_row(dex::class_data(f, c));
}

// Member k of a list of class c.
#[unsafe(no_mangle)]
pub extern "C" fn dralovika_member(f: &[u8], c: u32, list: u32, k: u32, out: &mut [u64; 20])
    ensures { out.new ≡ told_if found_words (member_number f.now c list k) }
{
    *out = answer_rows::found_row(dex::member(f, c, list, k));
}

// Its flags as bit numbers in a second output, and how many.
#[unsafe(no_mangle)]
pub extern "C" fn dralovika_member_flags(
    f: &[u8],
    c: u32,
    list: u32,
    k: u32,
    flags: &mut [u8],
    out: &mut [u64; 20],
)
    ensures answer { out.new ≡ told_if number_words (member_flags f.now c list k (length flags.old)) }
    ensures content { flags.new ≡ member_content f.now c list k flags.old }
{
    *out = answer_rows::written_row(dex::member_flags(f, c, list, k, flags));
}

// The code of method k of a list of class c.
#[unsafe(no_mangle)]
pub extern "C" fn dralovika_code(f: &[u8], c: u32, list: u32, k: u32, out: &mut [u64; 20])
    ensures { out.new ≡ told_if outline_words (method_code f.now c list k) }
{
    *out = answer_rows::code_row(dex::code(f, c, list, k));
}

// Its units in a second output, and how many.
#[unsafe(no_mangle)]
pub extern "C" fn dralovika_units(
    f: &[u8],
    c: u32,
    list: u32,
    k: u32,
    units: &mut [u16],
    out: &mut [u64; 20],
)
    ensures answer { out.new ≡ told_if number_words (method_units f.now c list k (length units.old)) }
    ensures content { units.new ≡ units_content f.now c list k units.old }
{
    *out = answer_rows::written_row(dex::units(f, c, list, k, units));
}

#[unsafe(no_mangle)]
pub extern "C" fn dralovika_try_item(
    f: &[u8],
    c: u32,
    list: u32,
    k: u32,
    t: u32,
    out: &mut [u64; 20],
)
    ensures { out.new ≡ told_if try_words (try_number f.now c list k t) }
{
    *out = answer_rows::try_row(dex::try_item(f, c, list, k, t));
}

// The number of the try that covers an address, or none.
#[unsafe(no_mangle)]
pub extern "C" fn dralovika_covering_try(
    f: &[u8],
    c: u32,
    list: u32,
    k: u32,
    address: u32,
    out: &mut [u64; 20],
)
    ensures { out.new ≡ told_if number_words (covering_try f.now c list k address) }
{
    *out = answer_rows::number_if_row(dex::covering_try(f, c, list, k, address));
}

#[unsafe(no_mangle)]
pub extern "C" fn dralovika_handler_count(f: &[u8], c: u32, list: u32, k: u32, out: &mut [u64; 20])
    ensures { out.new ≡ told_if number_words (handler_count f.now c list k) }
{
    *out = answer_rows::written_row(dex::handler_count(f, c, list, k));
}

#[unsafe(no_mangle)]
pub extern "C" fn dralovika_handler(
    f: &[u8],
    c: u32,
    list: u32,
    k: u32,
    h: u32,
    out: &mut [u64; 20],
)
    ensures { out.new ≡ told_if handler_words (handler_number f.now c list k h) }
{
    *out = answer_rows::handler_row(dex::handler(f, c, list, k, h));
}

// Pair p of handler h.
#[unsafe(no_mangle)]
pub extern "C" fn dralovika_handler_pair(
    f: &[u8],
    c: u32,
    list: u32,
    k: u32,
    h: u32,
    p: u32,
    out: &mut [u64; 20],
)
    ensures { out.new ≡ told_if pair_words (handler_pair f.now c list k h p) }
{
    *out = answer_rows::pair_row(dex::handler_pair(f, c, list, k, h, p));
}

// Its debug information: the line program as place and length.
#[unsafe(no_mangle)]
pub extern "C" fn dralovika_debug(f: &[u8], c: u32, list: u32, k: u32, out: &mut [u64; 20])
    ensures { out.new ≡ told_if debug_words (method_debug f.now c list k) }
{
    *out = answer_rows::debug_row(dex::debug(f, c, list, k));
}

// The name of parameter p, or none.
#[unsafe(no_mangle)]
pub extern "C" fn dralovika_debug_parameter(
    f: &[u8],
    c: u32,
    list: u32,
    k: u32,
    p: u32,
    out: &mut [u64; 20],
)
    ensures { out.new ≡ told_if option_words (parameter_name f.now c list k p) }
{
    *out = answer_rows::name_row(dex::debug_parameter(f, c, list, k, p));
}
