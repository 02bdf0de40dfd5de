// The access flags of a class, as bit numbers in a lent output.
ghost use Rattle.std.specs.Prelude.{◌≡◌, length};
ghost use Rattle.access_flags.specs.Answers.{flags_outcome};
ghost use Rattle.table_readers.specs.Flags.{class_flags, class_content};

use refusal::Refusal;

// The flags of class n: how many; 19, writing nothing, where the output is shorter.
pub fn class_flags(f: &[u8], n: u32, out: &mut [u8]) -> Result<usize, Refusal>
    ensures answer { flags_outcome result ≡ class_flags f.now n (length out.old) }
    ensures content { out.new ≡ class_content f.now n out.old }
{
    let c = super::tables::class(f, n)?;
    access_flags::flags_into(c.flags, true, out)
}
