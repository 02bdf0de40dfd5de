// Values by place and by class.

ghost use Rattle.std.specs.Prelude.{◌≡◌};
ghost use Rattle.value_readers.specs.Bodies.{array_of, array_value_of, body_of, body_element_of};
ghost use Rattle.value_readers.specs.Statics.{static_count, static_value};
ghost use Rattle.static_fields.specs.Pairing.{static_field, wrong_kind};
ghost use Rattle.answer_rows.specs.Words.{told, told_if, number_words, array_words, body_words, value_words, element_words, static_words, wrong_words};

// How many values the array at a place has, and its length in bytes.
#[unsafe(no_mangle)]
pub extern "C" fn dralovika_array(f: &[u8], place: usize, out: &mut [u64; 20])
    ensures { out.new ≡ told array_words (array_of f.now place) }
{
    *out = answer_rows::array_row(dex::array(f, place));
}

#[unsafe(no_mangle)]
pub extern "C" fn dralovika_array_value(f: &[u8], place: usize, k: u32, out: &mut [u64; 20])
    ensures { out.new ≡ told value_words (array_value_of f.now place k) }
{
    *out = answer_rows::picked_row(dex::array_value(f, place, k));
}

// The type and the size of the annotation body at a place, and its length in bytes.
#[unsafe(no_mangle)]
pub extern "C" fn dralovika_annotation_body(f: &[u8], place: usize, out: &mut [u64; 20])
    ensures { out.new ≡ told body_words (body_of f.now place) }
{
    *out = answer_rows::body_row(dex::annotation_body(f, place));
}

#[unsafe(no_mangle)]
pub extern "C" fn dralovika_annotation_body_element(
    f: &[u8],
    place: usize,
    k: u32,
    out: &mut [u64; 20],
)
    ensures { out.new ≡ told element_words (body_element_of f.now place k) }
{
    *out = answer_rows::element_row(dex::annotation_body_element(f, place, k));
}

#[unsafe(no_mangle)]
pub extern "C" fn dralovika_static_value_count(f: &[u8], c: u32, out: &mut [u64; 20])
    ensures { out.new ≡ told number_words (static_count f.now c) }
{
    *out = answer_rows::number_row(dex::static_value_count(f, c));
}

#[unsafe(no_mangle)]
pub extern "C" fn dralovika_static_value(f: &[u8], c: u32, k: u32, out: &mut [u64; 20])
    ensures { out.new ≡ told value_words (static_value f.now c k) }
{
    *out = answer_rows::picked_row(dex::static_value(f, c, k));
}

// Static field k of class c with its value.
#[unsafe(no_mangle)]
pub extern "C" fn dralovika_static_field(f: &[u8], c: u32, k: u32, out: &mut [u64; 20])
    ensures { out.new ≡ told_if static_words (static_field f.now c k) }
{
    *out = answer_rows::static_row(dex::static_field(f, c, k));
}

// The first static field of class c whose value has the wrong kind.
#[unsafe(no_mangle)]
pub extern "C" fn dralovika_wrong_kind(f: &[u8], c: u32, out: &mut [u64; 20])
    ensures { out.new ≡ told_if wrong_words (wrong_kind f.now c) }
{
    *out = answer_rows::wrong_row(dex::wrong_kind(f, c));
}
