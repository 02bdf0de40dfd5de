// What the register's program does: reads an input whole as `checking` does, has it checked, and writes its register, or the refusal. docs/REGISTER.md says the
// format. What is read and written no contract can say. Every reader here answers on an accepted file, which is not shown here. Where one did not, the register would
// end and the exit status say so; but a directory or a count that could not be read would be taken for none.
#![tactic(auto)]

ghost use Rattle.checking.specs.Status.{Comes};
ghost use Rattle.registering.specs.Ends.{Ended};

use header::Header;
use lines::{Output, Stopped};
use std::env::Env;
use std::fs::Files;

mod annotations;
mod classes;
mod lines;
mod names;
mod values;

// The heading of a file that is named, and its register. Standard input has an empty name.
fn put_register(
    rt: &(impl Env + Print),
    f: &[u8],
    header: Header,
    name: &[u8],
) -> Result<(), Stopped> {
    let mut out = Output::new();
    out.put_heading(rt, name)?;
    classes::write_classes(rt, f, header, &mut out)?;
    out.flush(rt)
}

// Writes the register of a file, and says what it comes to.
fn write_register(rt: &(impl Env + Print), f: &[u8], header: Header, what: &[u8], name: &[u8]) -> u8
    ensures { Ended result }
{
    lines::ended(put_register(rt, f, header, name), what)
}

// Checks an input that was read whole, and writes its register, or its refusal.
fn register_bytes(rt: &(impl Env + Print), f: &[u8], what: &[u8], name: &[u8]) -> u8
    ensures { Comes f.now result }
{
    let verdict = file_report::input_verdict(f);
    match verdict {
        Err(_) => checking::write_report(rt, verdict, what, name),
        Ok(header) => write_register(rt, f, header, what, name),
    }
}

// The program.
pub fn run(rt: &(impl Files + Env + std::io::Input + Print)) {
    checking::run_with(rt, |f, what, name| register_bytes(rt, f, what, name));
}
