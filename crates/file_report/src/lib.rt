// What a program's input comes to.
#![tactic(auto)]

ghost use Rattle.std.specs.Prelude.{◌≡◌};
ghost use Rattle.verdict.specs.Answers.{verdict_outcome};
ghost use Rattle.file_report.specs.Input.{input_at};

use verdict::Verdict;

// What a program's input comes to, which has at most 65,536 bytes.
pub fn input_verdict(f: &[u8]) -> Verdict
    ensures { verdict_outcome result ≡ input_at f.now }
{
    if 65536 < f.len() {
        return Err(refusal::input_too_long());
    }
    whole_check::verdict(f)
}
