// Rows of class data, code and debug information.
ghost use Rattle.std.specs.Prelude.{◌≡◌, ◌∷◌};
ghost use Rattle.std.proofs.Math.Option.{Option};
ghost use Rattle.refusal.specs.Outcome.{answer};
ghost use Rattle.code_item.specs.Answers.{catch_meant};
ghost use Rattle.class_readers.specs.Answers.{maybe_data as data_outcome, maybe_member as found_outcome, maybe_count as written-outcome};
ghost use Rattle.code_readers.specs.Answers.{maybe_code as code_outcome, maybe_try as try_outcome, maybe_handler as handler_outcome, maybe_pair as pair_outcome};
ghost use Rattle.debug_readers.specs.Answers.{maybe_debug as debug_outcome, maybe_name as name_outcome};
ghost use Rattle.answer_rows.specs.Words.{counts_words, debug_words, found_words, handler_words, number_words, option_word, option_words, outline_words, pair_words, row, told_if, try_words};

use super::words;
use class_data::Counts;
use class_members::Member;
use code_item::{HandlerOutline, NumberedTry, Outline};
use debug_info::DebugOutline;
use handlers::Pair;
use refusal::Refusal;

fn option_word(n: Option<u32>) -> u64
    ensures { result ≡ option_word (catch_meant n) }
{
    match n {
        Some(n) => n as u64,
        None => 18446744073709551615,
    }
}

fn outline_row(o: Outline) -> [u64; 20]
    ensures { result ≡ row (0 ∷ outline_words o) }
{
    let head = o.head;
    [
        0,
        head.registers as u64,
        head.ins as u64,
        head.outs as u64,
        head.tries as u64,
        head.debug as u64,
        head.units as u64,
        o.handlers as u64,
        o.from as u64,
        o.base as u64,
        o.end as u64,
        0,
        0,
        0,
        0,
        0,
        0,
        0,
        0,
        0,
    ]
}

pub fn data_row(a: Result<Option<Counts>, Refusal>) -> [u64; 20]
    ensures { result ≡ told_if counts_words (data_outcome a) }
{
    match a {
        Err(r) => words::refused(r),
        Ok(None) => words::absent(),
        Ok(Some(c)) => words::four(
            c.statics as u64,
            c.instances as u64,
            c.directs as u64,
            c.virtuals as u64,
        ),
    }
}

pub fn found_row(a: Result<Option<Member>, Refusal>) -> [u64; 20]
    ensures { result ≡ told_if found_words (found_outcome a) }
{
    match a {
        Err(r) => words::refused(r),
        Ok(None) => words::absent(),
        Ok(Some(m)) => words::four(m.index as u64, m.flags as u64, m.code as u64, 0),
    }
}

pub fn written_row(a: Result<Option<usize>, Refusal>) -> [u64; 20]
    ensures { result ≡ told_if number_words (written-outcome a) }
{
    match a {
        Err(r) => words::refused(r),
        Ok(None) => words::absent(),
        Ok(Some(n)) => words::four(n as u64, 0, 0, 0),
    }
}

pub fn code_row(a: Result<Option<Outline>, Refusal>) -> [u64; 20]
    ensures { result ≡ told_if outline_words (code_outcome a) }
{
    match a {
        Err(r) => words::refused(r),
        Ok(None) => words::absent(),
        Ok(Some(o)) => outline_row(o),
    }
}

pub fn try_row(a: Result<Option<NumberedTry>, Refusal>) -> [u64; 20]
    ensures { result ≡ told_if try_words (try_outcome a) }
{
    match a {
        Err(r) => words::refused(r),
        Ok(None) => words::absent(),
        Ok(Some(NumberedTry { attempt, number })) => words::four(
            attempt.start as u64,
            attempt.count as u64,
            attempt.handler as u64,
            number as u64,
        ),
    }
}

pub fn handler_row(a: Result<Option<HandlerOutline>, Refusal>) -> [u64; 20]
    ensures { result ≡ told_if handler_words (handler_outcome a) }
{
    match a {
        Err(r) => words::refused(r),
        Ok(None) => words::absent(),
        Ok(Some(HandlerOutline { offset, pairs, all })) => words::four(
            offset as u64,
            pairs as u64,
            option_word(all),
            0,
        ),
    }
}

pub fn pair_row(a: Result<Option<Pair>, Refusal>) -> [u64; 20]
    ensures { result ≡ told_if pair_words (pair_outcome a) }
{
    match a {
        Err(r) => words::refused(r),
        Ok(None) => words::absent(),
        Ok(Some(p)) => words::four(p.kind as u64, p.address as u64, 0, 0),
    }
}

pub fn debug_row(a: Result<Option<DebugOutline>, Refusal>) -> [u64; 20]
    ensures { result ≡ told_if debug_words (debug_outcome a) }
{
    match a {
        Err(r) => words::refused(r),
        Ok(None) => words::absent(),
        Ok(
            Some(
                DebugOutline {
                    line,
                    names,
                    start,
                    length,
                },
            ),
        ) => words::four(line as u64, names as u64, start as u64, length as u64),
    }
}

pub fn name_row(a: Result<Option<Option<u32>>, Refusal>) -> [u64; 20]
    ensures { result ≡ told_if option_words (name_outcome a) }
{
    match a {
        Err(r) => words::refused(r),
        Ok(None) => words::absent(),
        Ok(Some(n)) => words::four(option_word(n), 0, 0, 0),
    }
}
