//! The digits of a line of a log or a dump.

ghost use Rattle.std.specs.Prelude.{◌≡◌, ◌+◌, ◌-◌, ◌*◌, ◌/◌, ◌<◌, ◌≤◌, Ok, Err, IsTrue, drop, false, find, length, not};
ghost use Rattle.hex.specs.Hex.{decode_of};
ghost use Rattle.etcs_runs.specs.Digits.{are_digits, before_words, is_blank, is_passed_over, last_first, line_digits, run_words, says_nothing, words};
ghost use Rattle.etcs_runs.specs.Cuts.{parts_at};
ghost use Rattle.etcs_runs.specs.Answers.{Says};
ghost use Rattle.etcs_runs.specs.Finds.{digits_of};

use crate::found::Found;
use crate::hexadecimal::decode;
use crate::run::Run;
use crate::words::{bare, is_blank, last_word};

/// Why a line has no bytes, as [`line_bytes`] finds its digits.
#[derive(Clone, Copy, Debug, PartialEq, Eq)]
pub enum NoBytes {
    /// It is blank or a comment: its first character that isn't a blank, a tab or a CR is `#`.
    Empty,
    /// The last part of its last word isn't of digits, and no words or parts before it are digits enough for an item, 20.
    /// Digits that touch any other letter don't count, since they are a part of a word that isn't of digits.
    NoDigits,
    /// It has this number of digits, which is odd.
    OddDigits(usize),
}

/// Whether the word has `count` digits, whose bytes are then at the end of the buffer.
pub(crate) fn is_taken(word: &[u8], count: usize, buffer: &mut [u8]) -> bool
    requires room { length word.now ≤ 2 * length buffer.old }
    requires even { count ≡ 2 * (count / 2) }
    ensures good { result ≡ are_digits count word.now }
    ensures bytes { IsTrue result → decode_of word.now ≡ Ok (drop (length buffer.new - count / 2) buffer.new) }
    ensures room { length buffer.new ≡ length buffer.old }
{
    let start = buffer.len() - word.len() / 2;
    word.len() == count && decode(word, &mut buffer[start..])
}

/// Writes the bytes of the digits to the end of the buffer, and returns how many these are, and the text before the words
/// that have them; before the last of these, if no other counts.
pub(crate) fn take<'a>(found: Found<'a>, buffer: &mut [u8]) -> (Result<usize, NoBytes>, &'a [u8])
    requires room { length found.before.now + length found.word.now ≤ 2 * length buffer.old }
    ensures digits { Says (digits_of found.entry.cut found.entry.size found.entry.before.now found.entry.word.now) result.0 buffer.new }
    ensures rest { 0 < length found.entry.before.now → result.1.now ≡ before_words (parts_at found.entry.cut) (run_words found.entry.size (last_first (parts_at found.entry.cut) found.entry.before.now)) found.entry.before.now }
    ensures room { length buffer.new ≡ length buffer.old }
{
    let count = found.word.len();
    if count == 0 {
        return (Err(NoBytes::NoDigits), found.before);
    }
    if count % 2 == 1 {
        return (Err(NoBytes::OddDigits(count)), found.before);
    }
    is_taken(found.word, count, buffer);
    let end = buffer.len();
    let mut at = end - count / 2;
    let mut rest = found.before;
    while let Some((before, word)) = last_word(found.cut, rest) {
        if !is_taken(bare(word), found.size, &mut buffer[..at]) {
            return (Ok(end - at), rest);
        }
        at -= found.size / 2;
        rest = before;
    }
    (Ok(end - at), rest)
}

/// The first character that isn't a blank, a tab or a CR.
fn first_character(line: &[u8]) -> Option<u8>
    ensures { result ≡ find (λ c. not (is_blank c)) line.now }
{
    line.iter().copied().find(|character| !is_blank(*character))
}

/// Whether a line is blank or a comment.
pub(crate) fn is_empty(line: &[u8]) -> bool
    ensures { result ≡ says_nothing (words is_blank line.now) }
{
    match first_character(line) {
        Some(character) => character == b'#',
        None => true,
    }
}

/// Writes the bytes that the digits of a line stand for to the end of `buffer`, and returns how many there are, at least
/// one. It succeeds exactly if the line is neither blank nor a comment and has an even number of digits, not none.
///
/// The digits (`line_digits`) are found as docs/FORMAT.md describes: those of the last words that are groups of one even
/// size (at most 16 digits, the last group perhaps smaller), or else those at the end of the last word, cut at characters
/// that are neither digits nor letters. If they are fewer than 20, the part or word at the end is skipped, and then the one
/// before it, until there are 20; if there never are, the digits are those at the end. A comment (`#`, `;` or `//` after a
/// blank) is skipped if there are 20 digits before it; a byte order mark and what is in front of the digits always are.
///
/// Requires a buffer of at least half as many bytes as the line has characters (`room`). Its length stays.
///
/// # Errors
///
/// - `Empty` exactly if the line has no word, or its first one begins with `#`, whatever digits it has;
/// - `NoDigits` if it has no digits: what is at its end isn't of digits, and no words or parts before that are 20 of them.
///   Digits that touch any other letter don't count: they are a part of a word;
/// - `OddDigits` with their number if that is odd.
///
/// What the buffer holds after an error isn't promised.
pub fn line_bytes(line: &[u8], buffer: &mut [u8]) -> Result<usize, NoBytes>
    requires room { length line.now ≤ 2 * length buffer.old }
    ensures empty { IsTrue (is_passed_over line.now) → result ≡ Err NoBytes.Empty }
    ensures digits { is_passed_over line.now ≡ false → Says (line_digits line.now) result buffer.new }
    ensures room { length buffer.new ≡ length buffer.old }
{
    match Run::last(line, buffer) {
        Some(run) => run.bytes,
        None => Err(NoBytes::Empty),
    }
}
