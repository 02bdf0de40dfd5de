// The annotation directory. One piece serves its three lists of entries.
// `s` is the file up to the data section's end, so that what runs past its length is 9; all faults of an item are at its own place.
#![tactic(auto)]

ghost use Rattle.std.specs.Prelude.{◌≡◌, ◌+◌, ◌*◌, ◌≤◌, length};
ghost use Rattle.encoded_value.specs.Answers.{step_outcome};
ghost use Rattle.annotation_directories.specs.Directories.{counts_at, head_at, entry_at, entries_pass, list_past, lists_pass, directory_head, directory_entry};
ghost use Rattle.annotation_directories.specs.Directories.{count_of, before_of, limit_of};
ghost use Rattle.refusal.specs.Answers.{checked_outcome};
ghost use Rattle.annotation_directories.specs.Answers.{directory_entry_outcome, directory_head_outcome};

use frame::Frame;
use refusal::Refusal;

// A field or method, and where its set or reference list is.
#[derive(Clone, Copy)]
pub struct DirectoryEntry {
    pub index: u32,
    pub offset: u32,
}

// A directory's head: where the class annotations are (0 for none), and how many fields, methods and parameter entries follow.
#[derive(Clone, Copy)]
pub struct DirectoryHead {
    pub set: u32,
    pub fields: u32,
    pub methods: u32,
    pub parameters: u32,
}

// The three counts behind the class annotations' offset.
fn counts_at(s: &[u8], frame: Frame, item: usize, set: u32) -> Result<DirectoryHead, Refusal>
    requires { item + 4 ≤ length s.now }
    ensures { directory_head_outcome result ≡ counts_at s.now frame item set }
{
    let fields = annotation_lists::word_at(s, frame, item, item + 4)?;
    let methods = annotation_lists::word_at(s, frame, item, item + 8)?;
    let parameters = annotation_lists::word_at(s, frame, item, item + 12)?;
    Ok(DirectoryHead {
        set,
        fields,
        methods,
        parameters,
    })
}

// The head, field by field.
fn head_at(s: &[u8], frame: Frame, item: usize) -> Result<DirectoryHead, Refusal>
    ensures { directory_head_outcome result ≡ head_at s.now frame item }
{
    let set = annotation_lists::word_at(s, frame, item, item)?;
    if frame::is_allowed_or_absent(frame.start, s.len(), true, set as usize) {
        return counts_at(s, frame, item, set);
    }
    Err(refusal::wrong_offset(item))
}

// The entry at a place: its index below a limit, then its offset.
fn entry_at(
    s: &[u8],
    frame: Frame,
    item: usize,
    limit: u32,
    at: usize,
) -> Result<DirectoryEntry, Refusal>
    requires { at + 8 ≤ length s.now }
    ensures { directory_entry_outcome result ≡ entry_at s.now frame item limit at }
{
    let order = frame.order;
    let index = word::u32_at(s, at, order);
    let offset = word::u32_at(s, at + 4, order);
    if index < limit {
        if frame::is_allowed(frame.start, s.len(), true, offset as usize) {
            return Ok(DirectoryEntry { index, offset });
        }
        return Err(refusal::wrong_offset(item));
    }
    Err(refusal::wrong_index(item))
}

// All entries from a place on, which lie within the slice.
fn entries_pass(
    s: &[u8],
    frame: Frame,
    item: usize,
    limit: u32,
    from: usize,
    count: u32,
) -> Result<(), Refusal>
    requires { from + 8 * count ≤ length s.now }
    ensures { checked_outcome result ≡ entries_pass s.now frame item limit from count }
{
    let mut at = from;
    for _ in 0..count {
        entry_at(s, frame, item, limit, at)?;
        at += 8;
    }
    Ok(())
}

// One of the three lists, its length first: where it ends.
fn list_past(
    s: &[u8],
    frame: Frame,
    item: usize,
    limit: u32,
    from: usize,
    count: u32,
) -> Result<usize, Refusal>
    ensures { step_outcome result ≡ list_past s.now frame item limit from count }
{
    let size = 8 * count as usize;
    if word::has_room(s.len(), from, size) {
        entries_pass(s, frame, item, limit, from, count)?;
        return Ok(from + size);
    }
    Err(refusal::runs_past(item))
}

// Fields, methods and parameters in turn.
fn lists_pass(s: &[u8], frame: Frame, item: usize, h: DirectoryHead) -> Result<(), Refusal>
    requires { item + 16 ≤ length s.now }
    ensures { checked_outcome result ≡ lists_pass s.now frame item h }
{
    let methods = list_past(s, frame, item, frame.fields, item + 16, h.fields)?;
    let parameters = list_past(s, frame, item, frame.methods, methods, h.methods)?;
    list_past(s, frame, item, frame.methods, parameters, h.parameters)?;
    Ok(())
}

// The directory at a place, by its own rules: its head.
pub fn directory(s: &[u8], frame: Frame, item: usize) -> Result<DirectoryHead, Refusal>
    ensures { directory_head_outcome result ≡ directory_head s.now frame item }
{
    let h = head_at(s, frame, item)?;
    lists_pass(s, frame, item, h)?;
    Ok(h)
}

// How many entries a list has: fields 0, methods 1, parameters 2.
// A list stays a number: the readers ask by it, and the contract answers for every number, also one that names no list.
fn count_of(h: DirectoryHead, list: u32) -> u32
    ensures { result ≡ count_of h list }
{
    match list {
        0 => h.fields,
        1 => h.methods,
        2 => h.parameters,
        _ => 0,
    }
}

// How many entries stand before a list's.
fn before_of(h: DirectoryHead, list: u32) -> usize
    ensures { result ≡ before_of h list }
{
    match list {
        0 => 0,
        1 => h.fields as usize,
        _ => h.fields as usize + h.methods as usize,
    }
}

// The count that a list's indices are tested by.
fn limit_of(frame: Frame, list: u32) -> u32
    ensures { result ≡ limit_of frame list }
{
    match list {
        0 => frame.fields,
        _ => frame.methods,
    }
}

// Entry k of a list: fields 0, methods 1, parameters 2.
pub fn directory_entry(
    s: &[u8],
    frame: Frame,
    item: usize,
    list: u32,
    k: u32,
) -> Result<DirectoryEntry, Refusal>
    ensures { directory_entry_outcome result ≡ directory_entry s.now frame item list k }
{
    let h = directory(s, frame, item)?;
    if k < count_of(h, list) {
        let before = before_of(h, list);
        return entry_at(
            s,
            frame,
            item,
            limit_of(frame, list),
            item + 16 + 8 * (before + k as usize),
        );
    }
    Err(refusal::not_there())
}
