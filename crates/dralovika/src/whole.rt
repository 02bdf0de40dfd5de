// The whole check.
ghost use Rattle.std.specs.Prelude.{◌≡◌};
ghost use Rattle.answer_rows.specs.Words.{told, no_words};
ghost use Rattle.whole_check.specs.File.{check_at};

#[unsafe(no_mangle)]
pub extern "C" fn dralovika_check(f: &[u8], out: &mut [u64; 20])
    ensures { out.new ≡ told no_words (check_at f.now) }
{
    *out = answer_rows::checked_row(dex::check(f));
}
