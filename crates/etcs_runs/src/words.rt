//! The words of a line, their digits, and its comment.

ghost use Rattle.std.specs.Prelude.{◌≡◌, ◌+◌, ◌-◌, ◌<◌, ◌≤◌, ◌++◌, ◌∷◌, IfSome, IsNone, IsTrue, [], drop, false, length, not, slice_index, take, true};
ghost use Rattle.std.specs.List.{list_all};
ghost use Rattle.hex.specs.Hex.{is_hex_digit};
ghost use Rattle.etcs_runs.specs.Digits.{bare, before_last, begins_comment, group_size, is_blank, is_gap, is_group, is_mark, is_size, is_x, last_first, without_comment, without_end, without_mark, words};
ghost use Rattle.etcs_runs.specs.Cuts.{parts_at};
ghost use Rattle.etcs_runs.specs.Finds.{IsKnown};

use crate::hexadecimal::is_digit;
use memchr::memchr3;

/// How many digits an item has at least: the shortest messages have ten bytes.
pub(crate) const ENOUGH: usize = 20;

/// The characters at which a text is cut into words.
#[derive(Clone, Copy)]
pub(crate) enum Cut {
    /// Blanks, tabs and CRs.
    Blanks,
    /// These, commas, semicolons, equals signs, quotes and brackets.
    Gaps,
    /// All but digits and letters of ASCII.
    Joints,
}

/// Whether the character is a blank, a tab or a CR.
pub(crate) fn is_blank(character: u8) -> bool
    ensures { result ≡ is_blank character }
{
    matches!(character, b' ' | b'\t' | b'\r')
}

/// Whether the character is a comma, a semicolon, an equals sign, a quote or a bracket.
fn is_mark(character: u8) -> bool
    ensures { result ≡ is_mark character }
{
    matches!(
        character,
        b',' | b';' | b'=' | b'"' | b'\'' | b'(' | b')' | b'[' | b']' | b'{' | b'}' | b'<' | b'>'
    )
}

/// Whether the character is a blank or such a mark. Most characters are digits, which a table has.
#[tactic(auto, using(crate::proofs::Pure::gap_apart))]
fn is_gap(character: u8) -> bool
    ensures { result ≡ is_gap character }
{
    !is_digit(character) && (is_blank(character) || is_mark(character))
}

impl Cut {
    /// Whether the character is one of them.
    fn is_at(self, character: u8) -> bool
        ensures { result ≡ parts_at self character }
    {
        match self {
            Cut::Blanks => is_blank(character),
            Cut::Gaps => is_gap(character),
            Cut::Joints => !character.is_ascii_alphanumeric(),
        }
    }
}

/// The place at which the last word ends.
pub(crate) fn end_of_word(cut: Cut, text: &[u8]) -> usize
    ensures within { result ≤ length text.now }
    ensures words { words (parts_at cut) text.now ≡ words (parts_at cut) (take result text.now) }
    ensures last { 0 < result → parts_at cut (slice_index text.now (result - 1)) ≡ false }
    ensures end { take result text.now ≡ without_end (parts_at cut) text.now }
{
    let mut end = text.len();
    while end > 0 && cut.is_at(text[end - 1]) {
        end -= 1;
    }
    end
}

/// The place at which the word begins with which the text ends.
pub(crate) fn start_of_word(cut: Cut, text: &[u8]) -> usize
    ensures within { result ≤ length text.now }
    ensures word { list_all (λ c. not (parts_at cut c)) (drop result text.now) ≡ true }
    ensures before { 0 < result → parts_at cut (slice_index text.now (result - 1)) ≡ true }
{
    let mut start = text.len();
    while start > 0 && !cut.is_at(text[start - 1]) {
        start -= 1;
    }
    start
}

/// The text before the last word, and this word.
pub(crate) fn last_word(cut: Cut, text: &[u8]) -> Option<(&[u8], &[u8])>
    ensures none { IsNone result → words (parts_at cut) text.now ≡ [] }
    ensures some { IfSome result (λ p. words (parts_at cut) text.now ≡ words (parts_at cut) p.0.now ++ p.1.now ∷ []) }
    ensures short { IfSome result (λ p. (0 < length p.1.now) × (length p.0.now + length p.1.now ≤ length text.now)) }
    ensures before { IfSome result (λ p. p.0.now ≡ before_last (parts_at cut) text.now) }
    ensures word { IfSome result (λ p. (without_end (parts_at cut) text.now ≡ p.0.now ++ p.1.now) × (list_all (λ c. not (parts_at cut c)) p.1.now ≡ true)) }
    ensures edge { IfSome result (λ p. 0 < length p.0.now → parts_at cut (slice_index p.0.now (length p.0.now - 1)) ≡ true) }
{
    let end = end_of_word(cut, text);
    if end == 0 {
        return None;
    }
    let start = start_of_word(cut, &text[..end]);
    Some((&text[..start], &text[start..end]))
}

/// The last word of a text that is cut at gaps, as `last_word`: it begins at `start`, if that isn't the text's length.
pub(crate) fn last_from(start: usize, text: &[u8]) -> Option<(&[u8], &[u8])>
    requires known { IsKnown text.now start }
    ensures none { IsNone result → words is_gap text.now ≡ [] }
    ensures some { IfSome result (λ p. words is_gap text.now ≡ words is_gap p.0.now ++ p.1.now ∷ []) }
    ensures short { IfSome result (λ p. (0 < length p.1.now) × (length p.0.now + length p.1.now ≤ length text.now)) }
    ensures before { IfSome result (λ p. p.0.now ≡ before_last is_gap text.now) }
    ensures word { IfSome result (λ p. (without_end is_gap text.now ≡ p.0.now ++ p.1.now) × (list_all (λ c. not (is_gap c)) p.1.now ≡ true)) }
    ensures edge { IfSome result (λ p. 0 < length p.0.now → is_gap (slice_index p.0.now (length p.0.now - 1)) ≡ true) }
{
    if start < text.len() {
        Some((&text[..start], &text[start..]))
    } else {
        last_word(Cut::Gaps, text)
    }
}

/// A text without blanks, tabs and CRs at its end.
pub(crate) fn without_blanks(text: &[u8]) -> &[u8]
    ensures { result.now ≡ without_end is_blank text.now }
{
    &text[..end_of_word(Cut::Blanks, text)]
}

/// Whether the character is an x.
fn is_x(character: u8) -> bool
    ensures { result ≡ is_x character }
{
    matches!(character, b'x' | b'X')
}

/// A word without `0x` in front.
pub(crate) fn bare(word: &[u8]) -> &[u8]
    ensures value { result.now ≡ bare word.now }
    ensures short { length result.now ≤ length word.now }
{
    if word.len() > 1 && word[0] == b'0' && is_x(word[1]) {
        &word[2..]
    } else {
        word
    }
}

/// A line without the byte order mark in front.
pub(crate) fn without_mark(line: &[u8]) -> &[u8]
    ensures value { result.now ≡ without_mark line.now }
    ensures short { length result.now ≤ length line.now }
{
    if line.len() > 2 && line[0] == 0xEF && line[1] == 0xBB && line[2] == 0xBF {
        &line[3..]
    } else {
        line
    }
}

/// Whether each character of a word is a digit.
pub(crate) fn is_of_digits(word: &[u8]) -> bool
    ensures { result ≡ list_all is_hex_digit word.now }
{
    word.iter().all(|character| is_digit(*character))
}

/// Whether a word is digits alone, enough for an item. One that doesn't end with a digit isn't searched from its front.
pub(crate) fn is_long(word: &[u8]) -> bool
    ensures { IsTrue result → (20 ≤ length word.now) × (list_all is_hex_digit word.now ≡ true) }
{
    word.len() >= ENOUGH && is_digit(word[word.len() - 1]) && is_of_digits(word)
}

/// Whether groups may have `count` digits: an even number, of at most 16.
pub(crate) fn is_size(count: usize) -> bool
    ensures { result ≡ is_size count }
{
    count > 0 && count <= 16 && count % 2 == 0
}

/// How many digits the groups at the end of a text have, before one of `count`.
pub(crate) fn group_size(cut: Cut, count: usize, text: &[u8]) -> usize
    requires size { is_size count ≡ true }
    ensures value { result ≡ group_size count (last_first (parts_at cut) text.now) }
    ensures size { is_size result ≡ true }
{
    let Some((_, word)) = last_word(cut, text) else {
        return count;
    };
    let size = bare(word).len();
    if count <= size && is_size(size) {
        size
    } else {
        count
    }
}

/// Whether a word is a group.
pub(crate) fn is_group(word: &[u8]) -> bool
    ensures { result ≡ is_group word.now }
{
    is_size(word.len()) && is_of_digits(word)
}

/// Whether a comment begins here: with a blank, and `#`, `;` or `//` after it.
fn begins_comment(text: &[u8]) -> bool
    ensures { result ≡ begins_comment text.now }
{
    let count = text.len();
    count > 1
        && is_blank(text[0])
        && (text[1] == b'#' || text[1] == b';' || (count > 2 && text[1] == b'/' && text[2] == b'/'))
}

/// The part of a line before its comment, if it has one.
pub(crate) fn before_comment(line: &[u8]) -> Option<&[u8]>
    ensures none { IsNone result → without_comment line.now ≡ line.now }
    ensures some { IfSome result (λ front. front.now ≡ without_comment line.now) }
    ensures short { IfSome result (λ front. length front.now ≤ length line.now) }
{
    let mark = memchr3(b'#', b';', b'/', line)?;
    for at in mark.saturating_sub(1)..line.len() {
        if begins_comment(&line[at..]) {
            return Some(&line[..at]);
        }
    }
    None
}
