// What goes out for an input: the line of its name, where it has one, and its report, into a lent output. So it can be written in one piece.
#![tactic(auto)]

ghost use Rattle.std.specs.Prelude.{◌≡◌, ◌+◌, ◌≤◌, length};
ghost use Rattle.verdict.specs.Answers.{verdict_outcome};
ghost use Rattle.report.specs.Stored.{Stored, written, content};
ghost use Rattle.report.specs.Answers.{report_outcome};
ghost use Rattle.named_report.specs.Output.{one_line, heading, output_of, status};

use refusal::Refusal;
use verdict::Verdict;

// Is a name one line? One with a line feed would be two, and the second could say what a report says.
pub fn is_one_line(name: &[u8]) -> bool
    ensures { result ≡ one_line name.now }
{
    !name.contains(&b'\n')
}

// How many bytes the line of a name takes.
fn heading_size(name: &[u8]) -> usize
    ensures { result ≡ length (heading name.now) }
{
    if 0 < name.len() {
        return name.len() + 6;
    }
    0
}

// A text from a place on, where there is room for it; the place after it. Not `report`'s: a public one would have to answer for a room that is too short.
fn put(text: &[u8], out: &mut [u8], at: usize) -> usize
    requires { at + length text.now ≤ length out.old }
    ensures { Stored text.now at out.old out.new result }
{
    let end = at + text.len();
    out[at..end].copy_from_slice(text);
    end
}

// The line of a name, where there is room for it.
fn put_heading(name: &[u8], out: &mut [u8]) -> usize
    requires { length (heading name.now) ≤ length out.old }
    ensures { Stored (heading name.now) 0 out.old out.new result }
{
    if 0 < name.len() {
        let p = put(b"file=", out, 0);
        let q = put(name, out, p);
        return put(b"\n", out, q);
    }
    0
}

// All that goes out for an input: how many bytes, or 19, writing nothing, where the output is shorter.
pub fn output_into(name: &[u8], verdict: Verdict, out: &mut [u8]) -> Result<usize, Refusal>
    ensures answer { report_outcome result ≡ written (output_of name.now (verdict_outcome verdict)) (length out.old) }
    ensures wrote { out.new ≡ content (output_of name.now (verdict_outcome verdict)) out.old }
{
    let at = heading_size(name);
    if out.len() < at {
        return Err(refusal::no_room());
    }
    let k = report::verdict_into(verdict, &mut out[at..])?;
    let end = at + k;
    put_heading(name, out);
    Ok(end)
}

// What an input comes to that was read: 0 where it is accepted, 1 where it is refused.
pub fn status_of(verdict: Verdict) -> u8
    ensures { result ≡ status (verdict_outcome verdict) }
{
    match verdict {
        Ok(_) => 0,
        Err(_) => 1,
    }
}
