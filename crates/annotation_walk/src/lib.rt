// Going over annotation sets, reference lists and directories with all that lies below them: own rules first, then the items pointed at, in
// stored order. Shared items are gone over each time they are reached.
#![tactic(auto)]

ghost use Rattle.std.specs.Prelude.{◌≡◌, ◌+◌, ◌*◌, ◌≤◌, length};
ghost use Rattle.refusal.specs.Answers.{checked_outcome};
ghost use Rattle.annotation_walk.specs.Below.{set_accepted, references_accepted, directory_accepted};
ghost use Rattle.annotation_walk.specs.Below.{items_pass, own_accepted, sets_pass, one_below, below_pass, lists_below};

use annotation_directories::DirectoryHead;
use frame::Frame;
use refusal::Refusal;

// The three loops below are each called once, behind the test of what they require: a struct of slice, place and count would be made for the one call.

// The annotation items whose offsets stand from a place on.
fn items_pass(s: &[u8], frame: Frame, from: usize, count: u32) -> Result<(), Refusal>
    requires { from + 4 * count ≤ length s.now }
    ensures { checked_outcome result ≡ items_pass s.now frame from count }
{
    let order = frame.order;
    let mut at = from;
    for _ in 0..count {
        annotation_items::annotation_item(s, frame, word::u32_at(s, at, order) as usize)?;
        at += 4;
    }
    Ok(())
}

// A set with all below it.
pub fn check_set(s: &[u8], frame: Frame, item: usize) -> Result<(), Refusal>
    ensures { checked_outcome result ≡ set_accepted s.now frame item }
{
    let count = annotation_lists::offset_count(s, frame, item, false, false)?;
    items_pass(s, frame, item + 4, count)
}

// The set at an offset with all below it, if it is not absent.
fn own_set(s: &[u8], frame: Frame, offset: u32) -> Result<(), Refusal>
    ensures { checked_outcome result ≡ own_accepted s.now frame offset }
{
    if offset <= 0 {
        return Ok(());
    }
    check_set(s, frame, offset as usize)
}

// The sets whose offsets stand from a place on.
fn sets_pass(s: &[u8], frame: Frame, from: usize, count: u32) -> Result<(), Refusal>
    requires { from + 4 * count ≤ length s.now }
    ensures { checked_outcome result ≡ sets_pass s.now frame from count }
{
    let order = frame.order;
    let mut at = from;
    for _ in 0..count {
        own_set(s, frame, word::u32_at(s, at, order))?;
        at += 4;
    }
    Ok(())
}

// A reference list with all below it.
pub fn check_references(s: &[u8], frame: Frame, item: usize) -> Result<(), Refusal>
    ensures { checked_outcome result ≡ references_accepted s.now frame item }
{
    let count = annotation_lists::reference_count(s, frame, item)?;
    sets_pass(s, frame, item + 4, count)
}

// What an entry leads to: a reference list for a parameter, else a set.
fn one_below(s: &[u8], frame: Frame, parameter: bool, offset: usize) -> Result<(), Refusal>
    ensures { checked_outcome result ≡ one_below s.now frame parameter offset }
{
    if parameter {
        return check_references(s, frame, offset);
    }
    check_set(s, frame, offset)
}

// What the entries from a place on lead to.
fn below_pass(
    s: &[u8],
    frame: Frame,
    parameter: bool,
    from: usize,
    count: u32,
) -> Result<(), Refusal>
    requires { from + 8 * count ≤ length s.now }
    ensures { checked_outcome result ≡ below_pass s.now frame parameter from count }
{
    let order = frame.order;
    let mut at = from;
    for _ in 0..count {
        one_below(s, frame, parameter, word::u32_at(s, at + 4, order) as usize)?;
        at += 8;
    }
    Ok(())
}

// Below the class, the fields, the methods and the parameters of a directory whose three lists lie within the slice.
fn lists_below(s: &[u8], frame: Frame, item: usize, h: DirectoryHead) -> Result<(), Refusal>
    requires { item + 16 + 8 * h.fields + 8 * h.methods + 8 * h.parameters ≤ length s.now }
    ensures { checked_outcome result ≡ lists_below s.now frame item h }
{
    let methods = item + 16 + 8 * h.fields as usize;
    own_set(s, frame, h.set)?;
    below_pass(s, frame, false, item + 16, h.fields)?;
    below_pass(s, frame, false, methods, h.methods)?;
    below_pass(
        s,
        frame,
        true,
        methods + 8 * h.methods as usize,
        h.parameters,
    )
}

// A directory with all below it.
pub fn check_directory(s: &[u8], frame: Frame, item: usize) -> Result<(), Refusal>
    ensures { checked_outcome result ≡ directory_accepted s.now frame item }
{
    let h = annotation_directories::directory(s, frame, item)?;
    lists_below(s, frame, item, h)
}
