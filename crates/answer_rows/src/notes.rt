// Rows of annotations, and of the check.
ghost use Rattle.std.specs.Prelude.{◌≡◌};
ghost use Rattle.refusal.specs.Answers.{checked_outcome};
ghost use Rattle.directory_readers.specs.Answers.{directory_outcome};
ghost use Rattle.annotation_directories.specs.Answers.{directory_entry_outcome as place-outcome};
ghost use Rattle.annotation_items.specs.Answers.{summary_outcome as annotation-outcome};
ghost use Rattle.answer_rows.specs.Words.{annotation_words, directory_words, no_words, place_words, told, told_if};

use super::words;
use annotation_directories::{DirectoryEntry, DirectoryHead};
use annotation_items::Summary;
use refusal::Refusal;

pub fn checked_row(a: Result<(), Refusal>) -> [u64; 20]
    ensures { result ≡ told no_words (checked_outcome a) }
{
    match a {
        Err(r) => words::refused(r),
        Ok(()) => words::four(0, 0, 0, 0),
    }
}

pub fn directory_row(a: Result<Option<DirectoryHead>, Refusal>) -> [u64; 20]
    ensures { result ≡ told_if directory_words (directory_outcome a) }
{
    match a {
        Err(r) => words::refused(r),
        Ok(None) => words::absent(),
        Ok(Some(h)) => words::four(
            h.set as u64,
            h.fields as u64,
            h.methods as u64,
            h.parameters as u64,
        ),
    }
}

pub fn place_row(a: Result<DirectoryEntry, Refusal>) -> [u64; 20]
    ensures { result ≡ told place_words (place-outcome a) }
{
    match a {
        Err(r) => words::refused(r),
        Ok(DirectoryEntry { index, offset }) => words::four(index as u64, offset as u64, 0, 0),
    }
}

pub fn annotation_row(a: Result<Summary, Refusal>) -> [u64; 20]
    ensures { result ≡ told annotation_words (annotation-outcome a) }
{
    match a {
        Err(r) => words::refused(r),
        Ok(
            Summary {
                visibility,
                type_index,
                count,
            },
        ) => words::four(visibility as u64, type_index as u64, count as u64, 0),
    }
}
