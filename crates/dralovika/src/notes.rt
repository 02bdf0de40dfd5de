// Annotations.
ghost use Rattle.std.specs.Prelude.{◌≡◌};
ghost use Rattle.directory_readers.specs.Directories.{directory, entry_number};
ghost use Rattle.value_readers.specs.Items.{annotation_of, annotation_element_of};
ghost use Rattle.set_readers.specs.Sets.{class_set, entry_set, parameter_set, parameter_set_count, annotation_count, annotation_place};
ghost use Rattle.answer_rows.specs.Words.{told, told_if, number_words, directory_words, place_words, annotation_words, element_words};

#[unsafe(no_mangle)]
pub extern "C" fn dralovika_directory(f: &[u8], c: u32, out: &mut [u64; 20])
    ensures { out.new ≡ told_if directory_words (directory f.now c) }
{
    *out = answer_rows::directory_row(dex::directory(f, c));
}

// Entry e of a directory: what it is of, and where its set or reference list is.
#[unsafe(no_mangle)]
pub extern "C" fn dralovika_field_entry(f: &[u8], c: u32, e: u32, out: &mut [u64; 20])
    ensures { out.new ≡ told place_words (entry_number f.now c 0 e) }
{
    *out = answer_rows::place_row(dex::field_entry(f, c, e));
}

#[unsafe(no_mangle)]
pub extern "C" fn dralovika_method_entry(f: &[u8], c: u32, e: u32, out: &mut [u64; 20])
    ensures { out.new ≡ told place_words (entry_number f.now c 1 e) }
{
    *out = answer_rows::place_row(dex::method_entry(f, c, e));
}

#[unsafe(no_mangle)]
pub extern "C" fn dralovika_parameter_entry(f: &[u8], c: u32, e: u32, out: &mut [u64; 20])
    ensures { out.new ≡ told place_words (entry_number f.now c 2 e) }
{
    *out = answer_rows::place_row(dex::parameter_entry(f, c, e));
}

// How many annotations a set has, and where each is.
#[unsafe(no_mangle)]
pub extern "C" fn dralovika_class_annotation_count(f: &[u8], c: u32, out: &mut [u64; 20])
    ensures { out.new ≡ told number_words (annotation_count f.now (class_set f.now c)) }
{
    *out = answer_rows::number_row(dex::class_annotation_count(f, c));
}

#[unsafe(no_mangle)]
pub extern "C" fn dralovika_class_annotation_place(f: &[u8], c: u32, k: u32, out: &mut [u64; 20])
    ensures { out.new ≡ told number_words (annotation_place f.now (class_set f.now c) k) }
{
    *out = answer_rows::number_row(dex::class_annotation_place(f, c, k));
}

#[unsafe(no_mangle)]
pub extern "C" fn dralovika_field_annotation_count(f: &[u8], c: u32, e: u32, out: &mut [u64; 20])
    ensures { out.new ≡ told number_words (annotation_count f.now (entry_set f.now c 0 e)) }
{
    *out = answer_rows::number_row(dex::field_annotation_count(f, c, e));
}

#[unsafe(no_mangle)]
pub extern "C" fn dralovika_field_annotation_place(
    f: &[u8],
    c: u32,
    e: u32,
    k: u32,
    out: &mut [u64; 20],
)
    ensures { out.new ≡ told number_words (annotation_place f.now (entry_set f.now c 0 e) k) }
{
    *out = answer_rows::number_row(dex::field_annotation_place(f, c, e, k));
}

#[unsafe(no_mangle)]
pub extern "C" fn dralovika_method_annotation_count(f: &[u8], c: u32, e: u32, out: &mut [u64; 20])
    ensures { out.new ≡ told number_words (annotation_count f.now (entry_set f.now c 1 e)) }
{
    *out = answer_rows::number_row(dex::method_annotation_count(f, c, e));
}

#[unsafe(no_mangle)]
pub extern "C" fn dralovika_method_annotation_place(
    f: &[u8],
    c: u32,
    e: u32,
    k: u32,
    out: &mut [u64; 20],
)
    ensures { out.new ≡ told number_words (annotation_place f.now (entry_set f.now c 1 e) k) }
{
    *out = answer_rows::number_row(dex::method_annotation_place(f, c, e, k));
}

// How many parameters entry e has sets for, absent ones too.
#[unsafe(no_mangle)]
pub extern "C" fn dralovika_parameter_set_count(f: &[u8], c: u32, e: u32, out: &mut [u64; 20])
    ensures { out.new ≡ told number_words (parameter_set_count f.now c e) }
{
    *out = answer_rows::number_row(dex::parameter_set_count(f, c, e));
}

#[unsafe(no_mangle)]
pub extern "C" fn dralovika_parameter_annotation_count(
    f: &[u8],
    c: u32,
    e: u32,
    p: u32,
    out: &mut [u64; 20],
)
    ensures { out.new ≡ told number_words (annotation_count f.now (parameter_set f.now c e p)) }
{
    *out = answer_rows::number_row(dex::parameter_annotation_count(f, c, e, p));
}

#[unsafe(no_mangle)]
pub extern "C" fn dralovika_parameter_annotation_place(
    f: &[u8],
    c: u32,
    e: u32,
    p: u32,
    k: u32,
    out: &mut [u64; 20],
)
    ensures { out.new ≡ told number_words (annotation_place f.now (parameter_set f.now c e p) k) }
{
    *out = answer_rows::number_row(dex::parameter_annotation_place(f, c, e, p, k));
}

// The annotation item at a place.
#[unsafe(no_mangle)]
pub extern "C" fn dralovika_annotation(f: &[u8], place: usize, out: &mut [u64; 20])
    ensures { out.new ≡ told annotation_words (annotation_of f.now place) }
{
    *out = answer_rows::annotation_row(dex::annotation(f, place));
}

#[unsafe(no_mangle)]
pub extern "C" fn dralovika_annotation_element(f: &[u8], place: usize, k: u32, out: &mut [u64; 20])
    ensures { out.new ≡ told element_words (annotation_element_of f.now place k) }
{
    *out = answer_rows::element_row(dex::annotation_element(f, place, k));
}
