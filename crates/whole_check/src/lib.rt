// The check of a whole file: header and map once, then each table with all below it, up to the first broken rule.
#![tactic(auto)]

ghost use Rattle.std.specs.Prelude.{◌≡◌};
ghost use Rattle.refusal.specs.Answers.{checked_outcome};
ghost use Rattle.verdict.specs.Answers.{verdict_outcome};
ghost use Rattle.whole_check.specs.File.{check_at, verdict_at};
ghost use Rattle.whole_check.specs.Passes.{names_pass, records_pass, items_pass, tables_pass, pass_in, verdict_in};

use header::{Header, Table};
use refusal::Refusal;
use verdict::Verdict;

mod tables;

// Strings, types, and protos with their parameters.
fn names_pass(f: &[u8], header: Header) -> Result<(), Refusal>
    ensures { checked_outcome result ≡ names_pass f.now header }
{
    let types = header.types;
    let protos = header.protos;
    string_ids::check_strings(f, header)?;
    tables::types_pass(f, header::plain_frame(header), types.offset, types.count)?;
    tables::protos_pass(f, header, protos.count)
}

// Fields and methods.
fn records_pass(f: &[u8], header: Header) -> Result<(), Refusal>
    ensures { checked_outcome result ≡ records_pass f.now header }
{
    let types = header.types;
    let protos = header.protos;
    let fields = header.fields;
    let methods = header.methods;
    let frame = header::plain_frame(header);
    tables::members_pass(f, frame, types.count, fields.offset, fields.count)?;
    tables::members_pass(f, frame, protos.count, methods.offset, methods.count)
}

// Method handles, and classes with all below them.
fn items_pass(f: &[u8], header: Header, t: Table) -> Result<(), Refusal>
    ensures { checked_outcome result ≡ items_pass f.now header t }
{
    let classes = header.classes;
    tables::handles_pass(f, header::frame_of(header, t.count), t.offset, t.count)?;
    tables::classes_pass(f, header, t.count, classes.count)
}

fn tables_pass(f: &[u8], header: Header, t: Table) -> Result<(), Refusal>
    ensures { checked_outcome result ≡ tables_pass f.now header t }
{
    names_pass(f, header)?;
    records_pass(f, header)?;
    items_pass(f, header, t)
}

fn check_in(f: &[u8], header: Header) -> Result<(), Refusal>
    ensures { checked_outcome result ≡ pass_in f.now header }
{
    let m = map_list::map_of(f, header)?;
    tables_pass(f, header, m.handles)
}

// A file with a good header: what the rest comes to.
fn verdict_in(f: &[u8], header: Header) -> Verdict
    ensures { verdict_outcome result ≡ verdict_in f.now header }
{
    check_in(f, header)?;
    Ok(header)
}

// The header of an accepted file, which is read once, or the first broken rule in document 01's order.
pub fn verdict(f: &[u8]) -> Verdict
    ensures { verdict_outcome result ≡ verdict_at f.now }
{
    let header = header::header_of(f)?;
    verdict_in(f, header)
}

// Accepted, or the first broken rule in document 01's order.
pub fn check(f: &[u8]) -> Result<(), Refusal>
    ensures { checked_outcome result ≡ check_at f.now }
{
    verdict(f)?;
    Ok(())
}
