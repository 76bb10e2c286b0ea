//! The runs of digits of a line.

ghost use Rattle.std.specs.Prelude.{◌≡◌, ◌+◌, ◌*◌, ◌<◌, ◌≤◌, ◌^◌, ◌∷◌, [], IfSome, IsNone, false, length, true};
ghost use Rattle.etcs_runs.specs.Digits.{are_enough, before_digits, is_passed_over, text_digits, text_front};
ghost use Rattle.etcs_runs.specs.Answers.{Says};
ghost use Rattle.etcs_runs.specs.Finds.{digits_of, end_of, found_front};
ghost use Rattle.etcs_runs.specs.LineRuns.{front_of, line_runs, text_end};

use crate::digits::{NoBytes, is_empty, is_taken, take};
use crate::found::{Found, find, find_text, whole};
use crate::front::{before_last_found, before_taken};
use crate::hexadecimal::is_digit;
use crate::words::{ENOUGH, without_blanks, without_mark};

/// A run of digits of a line: where it is, and how many bytes its digits stand for.
#[derive(Clone, Copy)]
pub struct Run<'a> {
    /// The line up to this run, and what is passed over after it.
    pub(crate) text: &'a [u8],
    pub(crate) found: Found<'a>,
    /// How many runs may be before it.
    pub(crate) left: usize,
    /// How many bytes its digits stand for, at least one, or why none.
    pub bytes: Result<usize, NoBytes>,
    /// What is before its digits.
    front: &'a [u8],
    ghost digits: { digits_of found.cut found.size found.before.now found.word.now ≡ text_digits text.now },
    ghost before: { front.now ≡ before_digits text.now },
    ghost end: { end_of found.cut found.passed found.line.now ≡ text_end text.now },
    ghost place: { front.now ≡ found_front found.cut found.size found.before.now found.after found.line.now },
    ghost within: { length found.line.now ≤ length text.now },
}

impl<'a> Run<'a> {
    ghost use Rattle.etcs_runs.specs.RunTexts.{runs_from};

    /// The run that was found in a text, whose bytes are written to the end of the buffer.
    fn of(text: &'a [u8], found: Found<'a>, left: usize, buffer: &mut [u8]) -> Run<'a>
        requires digits { digits_of found.cut found.size found.before.now found.word.now ≡ text_digits text.now }
        requires front { found_front found.cut found.size found.before.now found.after found.line.now ≡ before_digits text.now }
        requires end { end_of found.cut found.passed found.line.now ≡ text_end text.now }
        requires within { length found.line.now ≤ length text.now }
        requires room { length text.now ≤ 2 * length buffer.old }
        ensures text { result.text.now ≡ text.now }
        ensures enough { result.found.enough ≡ found.entry.enough }
        ensures left { result.left ≡ left }
        ensures bytes { Says (text_digits text.now) result.bytes buffer.new }
        ensures room { length buffer.new ≡ length buffer.old }
    {
        let (bytes, rest) = take(found, buffer);
        Run {
            text,
            found,
            left,
            bytes,
            front: before_taken(found, rest),
        }
    }

    /// Finds the last run of a line, the digits of [`line_bytes`](crate::line_bytes), and writes its bytes to the end of
    /// `buffer`. If there are no digits, the run has none (`NoDigits`). Returns `None` exactly if the line is blank or a
    /// comment.
    ///
    /// Requires a buffer of at least half as many bytes as the line has characters (`room`). Its length stays.
    pub fn last(line: &'a [u8], buffer: &mut [u8]) -> Option<Run<'a>>
        requires room { length line.now ≤ 2 * length buffer.old }
        ensures none { IsNone result → is_passed_over line.now ≡ true }
        ensures some { IfSome result (λ run. (is_passed_over line.now ≡ false) × (runs_from run ≡ line_runs line.now)) }
        ensures bytes { IfSome result (λ run. Says (text_digits run.text.now) run.bytes buffer.new) }
        ensures short { IfSome result (λ run. length run.text.now ≤ length line.now) }
        ensures room { length buffer.new ≡ length buffer.old }
    {
        let count = line.len();
        if count >= ENOUGH && count % 2 == 0 && is_digit(line[2]) && is_taken(line, count, buffer) {
            return Some(Run {
                text: line,
                found: whole(line, 0, line),
                left: count,
                bytes: Ok(count / 2),
                front: &line[..0],
            });
        }
        let line = without_mark(line);
        if is_empty(line) {
            return None;
        }
        let (text, found) = find(line);
        Some(Run::of(text, found, text.len(), buffer))
    }

    /// Finds the run before this one, which has 20 digits or more, and writes its bytes to the end of `buffer`. Returns
    /// `None` if there is none.
    ///
    /// Requires a buffer of at least half as many bytes as the line has characters (`room`). Its length stays.
    pub fn before(&self, buffer: &mut [u8]) -> Option<Run<'a>>
        requires room { length self.now.text.now ≤ 2 * length buffer.old }
        ensures none { IsNone result → runs_from self.now ≡ self.now.text.now ∷ [] }
        ensures some { IfSome result (λ run. runs_from self.now ≡ self.now.text.now ∷ runs_from run) }
        ensures bytes { IfSome result (λ run. Says (text_digits run.text.now) run.bytes buffer.new) }
        ensures short { IfSome result (λ run. length run.text.now ≤ length self.now.text.now) }
        ensures room { length buffer.new ≡ length buffer.old }
    {
        if !self.found.enough || self.left == 0 || self.front.len() < ENOUGH {
            return None;
        }
        let start = self.found.start.min(self.front.len());
        let found = find_text(self.front, start);
        if !found.enough {
            return None;
        }
        Some(Run::of(self.front, found, self.left - 1, buffer))
    }

    /// Writes its bytes to the end of `buffer` again, and returns what `bytes` has.
    ///
    /// Requires a buffer of at least half as many bytes as the line has characters (`room`). Its length stays.
    pub fn read(&self, buffer: &mut [u8]) -> Result<usize, NoBytes>
        requires room { length self.now.text.now ≤ 2 * length buffer.old }
        ensures digits { Says (text_digits self.now.text.now) result buffer.new }
        ensures room { length buffer.new ≡ length buffer.old }
    {
        take(self.found, buffer).0
    }

    /// Returns what is before its digits, as [`line_front`](crate::line_front) does.
    pub fn front(&self) -> &'a [u8]
        ensures value { result.now ≡ text_front self.now.text.now }
    {
        without_blanks(self.front)
    }

    /// Returns what is before the digits of its last `count` bytes, without blanks, tabs and CRs at the end. If these begin
    /// inside of a word, it ends with the digits that the word has before them.
    ///
    /// Requires that `count` is less than 2^63.
    pub fn front_of(&self, count: usize) -> &'a [u8]
        requires { count < 2 ^ 63 }
        ensures value { result.now ≡ front_of count self.now.text.now }
    {
        without_blanks(before_last_found(self.found, 2 * count))
    }
}
