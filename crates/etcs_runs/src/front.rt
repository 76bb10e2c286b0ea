//! What is before the digits of a line.

ghost use Rattle.std.specs.Prelude.{◌≡◌, ◌<◌, ◌++◌, ℕ, List, length};
ghost use Rattle.etcs_runs.specs.Digits.{before_words, last_first, line_front, run_words, without_mark};
ghost use Rattle.etcs_runs.specs.Cuts.{parts_at};
ghost use Rattle.etcs_runs.specs.Finds.{end_of, found_front};
ghost use Rattle.etcs_runs.specs.LineRuns.{before_count, before_last_digits};

use crate::found::{Found, count_run, find};
use crate::words::{
    Cut, bare, end_of_word, last_word, start_of_word, without_blanks, without_mark,
};

/// The text before its last words.
fn before_words(cut: Cut, count: usize, text: &[u8]) -> &[u8]
    ensures { result.now ≡ before_words (parts_at cut) count text.now }
{
    let mut rest = text;
    for _ in 0..count {
        let end = end_of_word(cut, rest);
        rest = &rest[..start_of_word(cut, &rest[..end])];
    }
    rest
}

/// The text before its last `count` digits.
fn before_last_digits(cut: Cut, count: usize, text: &[u8]) -> &[u8]
    ensures { result.now ≡ before_last_digits (parts_at cut) (last_first (parts_at cut) text.now) count text.now }
{
    let mut rest = text;
    let mut left = count;
    while left > 0 {
        let Some((before, word)) = last_word(cut, rest) else {
            return rest;
        };
        let size = bare(word).len();
        if size > left {
            return &rest[..before.len() + word.len() - left];
        }
        left -= size;
        rest = before;
    }
    rest
}

/// What is before the digits that were found.
pub(crate) fn before_found(found: Found<'_>) -> &[u8]
    ensures { result.now ≡ found_front found.entry.cut found.entry.size found.entry.before.now found.entry.after found.entry.line.now }
{
    if found.whole && found.start < found.line.len() {
        return &found.line[..found.start];
    }
    let words = found.after + count_run(found.cut, found.size, found.before, usize::MAX).0;
    before_words(found.cut, words, found.line)
}

/// The same after `take`, which returned `rest`: if these are groups between gaps, what is before them isn't searched again.
pub(crate) fn before_taken<'a>(found: Found<'a>, rest: &'a [u8]) -> &'a [u8]
    requires { 0 < length found.before.now → rest.now ≡ before_words (parts_at found.cut) (run_words found.size (last_first (parts_at found.cut) found.before.now)) found.before.now }
    ensures { result.now ≡ found_front found.entry.cut found.entry.size found.entry.before.now found.entry.after found.entry.line.now }
{
    if matches!(found.cut, Cut::Gaps) && !found.before.is_empty() {
        rest
    } else {
        before_found(found)
    }
}

/// What is before the last `count` digits that were found.
pub(crate) fn before_last_found(found: Found<'_>, count: usize) -> &[u8]
    ensures { result.now ≡ before_count (end_of found.entry.cut found.entry.passed found.entry.line.now) count }
{
    before_last_digits(
        found.cut,
        count,
        before_words(found.cut, found.passed, found.line),
    )
}

/// Returns what is before the digits of a line, for instance a time or a source, without a byte order mark in front and
/// without blanks, tabs and CRs at the end. The line without its byte order mark begins with it.
///
/// The digits are those of [`line_bytes`](crate::line_bytes), whether their number is even or odd. A `0x` in front of them
/// belongs to them; a name, a quote or a bracket that touches them does not. If the line has no digits, this is all of it,
/// without the mark and the blanks at its end. A comment is no exception: of `# dead` it is `#`.
pub fn line_front(line: &[u8]) -> &[u8]
    ensures value { result.now ≡ line_front line.now }
    ensures prefix { (rest : List ℕ) × (without_mark line.now ≡ result.now ++ rest) }
{
    let (_, found) = find(without_mark(line));
    without_blanks(before_found(found))
}
