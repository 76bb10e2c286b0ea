//! Where the digits of a line are.

ghost use Rattle.std.specs.Prelude.{◌≡◌, ◌+◌, ◌<◌, ◌≤◌, IsTrue, length, take, true};
ghost use Rattle.std.specs.List.{list_all};
ghost use Rattle.hex.specs.Hex.{is_hex_digit};
ghost use Rattle.etcs_runs.specs.Digits.{are_digits, are_enough, before_digits, before_end, before_words, end_digits, group_words, groups, is_gap, is_joint, last_first, passed_parts, read_text, run, run_words, text_digits, word_digits, word_parts};
ghost use Rattle.etcs_runs.specs.Cuts.{parts_at};
ghost use Rattle.etcs_runs.specs.declared.words.Cut.TheVariants.{Gaps, Joints};
ghost use Rattle.etcs_runs.specs.Finds.{IsKnown, IsStart, digits_of, end_of, found_front, is_found};
ghost use Rattle.etcs_runs.specs.LineRuns.{digits_end, text_end};

use crate::words::{
    Cut, ENOUGH, bare, before_comment, group_size, is_group, is_long, is_of_digits, is_size,
    last_from, last_word,
};

/// The digits of a line: those of a word, and of the words before it as long as each has `size` of them.
#[derive(Clone, Copy)]
pub(crate) struct Found<'a> {
    /// The line up to the last word that was not passed over.
    pub line: &'a [u8],
    /// Where its last word between gaps begins, if the digits are in that alone; else its length.
    pub start: usize,
    /// Whether they are all of that word.
    pub whole: bool,
    /// How its words are cut.
    pub cut: Cut,
    /// How many of these are after the digits.
    pub passed: usize,
    /// How many are after `before`.
    pub after: usize,
    /// The text before the word; empty if no word before it counts.
    pub before: &'a [u8],
    pub size: usize,
    /// The word without `0x`; empty if there are no digits.
    pub word: &'a [u8],
    /// Whether the digits are enough for an item.
    pub enough: bool,
    ghost groups: { IsTrue (is_found size before.now word.now) },
    ghost counted: { enough ≡ are_enough (digits_of cut size before.now word.now) },
    ghost starts: { IsStart line.now start },
    ghost parted: { start < length line.now → cut ≡ Joints },
    ghost taken: { enough ≡ true → 0 < after },
    ghost begins: { whole ≡ true → take start line.now ≡ found_front cut size before.now after line.now },
    ghost grouped: { cut ≡ Gaps → 0 < length before.now → before_words is_gap after line.now ≡ before.now },
    ghost within: { after + length before.now ≤ length line.now },
    ghost short: { length before.now + length word.now ≤ length line.now },
}

/// Whether a word has this number of digits.
fn are_digits(count: usize, word: &[u8]) -> bool
    ensures { result ≡ are_digits count word.now }
{
    word.len() == count && is_of_digits(word)
}

/// How many words at the end of a text have `size` digits each, and how many digits these are. It stops at `most` digits.
pub(crate) fn count_run(cut: Cut, size: usize, text: &[u8], most: usize) -> (usize, usize)
    ensures all { result.1 < most → (result.0 ≡ run_words size (last_first (parts_at cut) text.now)) × (result.1 ≡ length (run size (last_first (parts_at cut) text.now))) }
    ensures some { result.1 ≤ length (run size (last_first (parts_at cut) text.now)) }
    ensures within { (result.0 ≤ length text.now) × (result.1 ≤ length text.now) }
{
    let mut words = 0;
    let mut digits = 0;
    let mut rest = text;
    while digits < most {
        let Some((before, word)) = last_word(cut, rest) else {
            return (words, digits);
        };
        if !are_digits(size, bare(word)) {
            return (words, digits);
        }
        words += 1;
        digits += size;
        rest = before;
    }
    (words, digits)
}

/// The last groups of a text, or its last word if it is of digits. `passed` words of the line are after the text.
fn find_groups<'a>(
    line: &'a [u8],
    start: usize,
    cut: Cut,
    passed: usize,
    text: &'a [u8],
) -> Found<'a>
    requires room { passed + length text.now ≤ length line.now }
    requires word { IsStart line.now start }
    requires parted { start < length line.now → cut ≡ Joints }
    requires whole { cut ≡ Gaps → (passed ≡ 0) × (text.now ≡ line.now) }
    ensures line { result.line.now ≡ line.now }
    ensures digits { digits_of result.cut result.size result.before.now result.word.now ≡ groups (last_first (parts_at cut) text.now) }
    ensures front { found_front result.cut result.size result.before.now result.after result.line.now ≡ before_words (parts_at cut) (passed + group_words (last_first (parts_at cut) text.now)) line.now }
    ensures end { end_of result.cut result.passed result.line.now ≡ end_of cut passed line.now }
{
    let mut found = Found {
        line,
        start,
        whole: false,
        cut,
        passed,
        after: passed,
        before: &text[..0],
        size: 2,
        word: &text[..0],
        enough: false,
    };
    let Some((before, word)) = last_word(cut, text) else {
        return found;
    };
    let word = bare(word);
    if !is_of_digits(word) {
        return found;
    }
    let count = word.len();
    found.after += 1;
    found.word = word;
    if !is_size(count) {
        found.enough = count >= ENOUGH;
        return found;
    }
    found.before = before;
    found.size = group_size(cut, count, before);
    found.enough = count + count_run(cut, found.size, before, ENOUGH - count).1 >= ENOUGH;
    found
}

/// The digits of a line whose last word is nothing else, and enough.
#[inline]
pub(crate) fn whole<'a>(line: &'a [u8], start: usize, word: &'a [u8]) -> Found<'a>
    requires long { 20 ≤ length word.now }
    requires digits { list_all is_hex_digit word.now ≡ true }
    requires short { length word.now ≤ length line.now }
    requires word { IsStart line.now start }
    requires front { take start line.now ≡ before_words is_joint 1 line.now }
    ensures line { result.line.now ≡ line.now }
    ensures digits { digits_of result.cut result.size result.before.now result.word.now ≡ word.now }
    ensures front { found_front result.cut result.size result.before.now result.after result.line.now ≡ before_words is_joint 1 line.now }
    ensures end { end_of result.cut result.passed result.line.now ≡ end_of Joints 0 line.now }
    ensures enough { result.enough ≡ true }
{
    Found {
        line,
        start,
        whole: true,
        cut: Cut::Joints,
        passed: 0,
        after: 1,
        before: &word[..0],
        size: 2,
        word,
        enough: true,
    }
}

/// The digits of the last word of a line.
fn find_parts<'a>(line: &'a [u8], start: usize, word: &'a [u8]) -> Found<'a>
    requires room { length word.now ≤ length line.now }
    requires word { IsStart line.now start }
    ensures line { result.line.now ≡ line.now }
    ensures digits { digits_of result.cut result.size result.before.now result.word.now ≡ word_digits word.now }
    ensures front { found_front result.cut result.size result.before.now result.after result.line.now ≡ before_words is_joint (word_parts word.now) line.now }
    ensures end { end_of result.cut result.passed result.line.now ≡ end_of Joints (passed_parts word.now) line.now }
{
    let last = find_groups(line, start, Cut::Joints, 0, word);
    let mut found = last;
    let mut passed = 0;
    let mut rest = word;
    while !found.enough {
        let Some((before, _)) = last_word(Cut::Joints, rest) else {
            return last;
        };
        passed += 1;
        rest = before;
        found = find_groups(line, start, Cut::Joints, passed, rest);
    }
    found
}

/// The digits at the end of a line.
fn find_end(line: &[u8], start: usize) -> Found<'_>
    requires known { IsKnown line.now start }
    ensures line { result.line.now ≡ line.now }
    ensures digits { digits_of result.cut result.size result.before.now result.word.now ≡ end_digits (last_first is_gap line.now) }
    ensures front { found_front result.cut result.size result.before.now result.after result.line.now ≡ before_end line.now }
    ensures end { end_of result.cut result.passed result.line.now ≡ digits_end line.now }
{
    if let Some((before, word)) = last_from(start, line) {
        let digits = bare(word);
        if is_long(digits) {
            return whole(line, before.len(), digits);
        }
        if !is_group(digits) {
            return find_parts(line, before.len(), digits);
        }
    }
    find_groups(line, line.len(), Cut::Gaps, 0, line)
}

/// The digits of a text. Its last word begins at `start`, if that isn't its length.
pub(crate) fn find_text(line: &[u8], start: usize) -> Found<'_>
    requires known { IsKnown line.now start }
    ensures digits { digits_of result.cut result.size result.before.now result.word.now ≡ text_digits line.now }
    ensures front { found_front result.cut result.size result.before.now result.after result.line.now ≡ before_digits line.now }
    ensures end { end_of result.cut result.passed result.line.now ≡ text_end line.now }
    ensures short { length result.line.now ≤ length line.now }
{
    let last = find_end(line, start);
    let mut found = last;
    while !found.enough {
        let Some((before, _)) = last_word(Cut::Gaps, found.line) else {
            return last;
        };
        found = find_end(before, before.len());
    }
    found
}

/// What is read of a line without a byte order mark, and its digits.
pub(crate) fn find(line: &[u8]) -> (&[u8], Found<'_>)
    ensures text { result.0.now ≡ read_text line.now }
    ensures digits { digits_of result.1.cut result.1.size result.1.before.now result.1.word.now ≡ text_digits result.0.now }
    ensures front { found_front result.1.cut result.1.size result.1.before.now result.1.after result.1.line.now ≡ before_digits result.0.now }
    ensures end { end_of result.1.cut result.1.passed result.1.line.now ≡ text_end result.0.now }
    ensures short { (length result.0.now ≤ length line.now) × (length result.1.line.now ≤ length result.0.now) }
{
    if let Some(front) = before_comment(line) {
        let found = find_text(front, front.len());
        if found.enough {
            return (front, found);
        }
    }
    (line, find_text(line, line.len()))
}
