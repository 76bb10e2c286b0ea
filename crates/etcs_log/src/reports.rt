//! What is reported of a line, as far as its runs of digits were looked at.

ghost use Rattle.std.specs.Prelude.{◌≡◌, not, ◌*◌, ◌&&◌, ◌++◌, ◌∷◌, ℕ, List, [], None, Err, false, true, length, nat_lt};
ghost use Rattle.std.specs.Char.{is_ascii_alphabetic};
ghost use Rattle.std.specs.List.{list_any};
ghost use Rattle.etcs_runs.specs.Answers.{Says};
ghost use Rattle.etcs_runs.specs.Digits.{has_some, text_digits};
ghost use Rattle.etcs_log.specs.Candidates.{is_asked, is_wanted};
ghost use Rattle.std.specs.Option.{option_map};
ghost use Rattle.etcs_log.specs.Logs.{IsBytesNote, other_note, some_if, unless_asked};
ghost use Rattle.etcs_log.specs.declared.kinds.Kinds.{Kinds};
ghost use Rattle.etcs_log.specs.declared.notes.Note.{Note};
ghost use Rattle.etcs_log.specs.Reports.{AreReports, Sees};

use crate::kinds::{Kinds, is_asked, is_wanted};
use crate::notes::{Note, note_of, other_note};
use etcs_runs::{NoBytes, Run};

/// What is reported of a line whose runs are no item.
#[derive(Drop)]
pub(crate) struct Reports {
    /// Whether something is before the digits of the last run, so that bytes are named.
    named: bool,
    /// Whether the line is only text: without digits, or with fewer than an item has and a letter before them.
    is_text: bool,
    /// Whether a run is of a length that is asked for.
    asked: bool,
    /// Why the line is bad: of the first such run, and else of the last run.
    pub(crate) note: Note,
    /// What it is if there is none, and a run is of a length that another kind has.
    pub(crate) other: Option<Note>,
}

/// Whether there is a letter of ASCII.
fn has_letter(text: &[u8]) -> bool
    ensures { result ≡ list_any is_ascii_alphabetic text.now }
{
    text.iter().any(u8::is_ascii_alphabetic)
}

/// Whether there is anything.
#[tactic(auto, using(crate::proofs::Reporting::some_length))]
fn has_some(text: &[u8]) -> bool
    ensures { result ≡ has_some text.now }
{
    !text.is_empty()
}

/// What is reported of bytes if some kind has items of this length, and none that is asked for.
fn other_of(named: bool, asked: bool, bytes: &[u8]) -> Option<Note>
    ensures { result ≡ option_map (other_note named) (unless_asked (some_if asked bytes.now) (some_if (is_wanted bytes.now) bytes.now)) }
{
    if asked {
        return None;
    }
    if !is_wanted(bytes) {
        return None;
    }
    Some(other_note(named, bytes))
}

impl Reports {
    /// Of a line whose last run was looked at, with its bytes at the end of the buffer.
    pub(crate) fn of(kinds: Kinds, last: &Run<'_>, buffer: &[u8]) -> Reports
        requires { Says (text_digits last.now.text.now) last.now.bytes buffer.now }
        ensures { AreReports kinds (last.now.text.now ∷ []) result }
    {
        match last.bytes {
            Ok(count) => Reports::of_bytes(kinds, last.front(), &buffer[buffer.len() - count..]),
            Err(why) => Reports::of_none(last, why),
        }
    }

    /// Of a line whose last run has these bytes and this before its digits.
    fn of_bytes(kinds: Kinds, front: &[u8], bytes: &[u8]) -> Reports
        ensures named { result.named ≡ has_some front.now }
        ensures text { result.is_text ≡ nat_lt (2 * length bytes.now) 20 && list_any is_ascii_alphabetic front.now }
        ensures asked { result.asked ≡ is_asked kinds bytes.now }
        ensures note { IsBytesNote kinds result.named bytes.now result.note }
        ensures other { result.other ≡ option_map (other_note result.named) (unless_asked (some_if result.asked bytes.now) (some_if (is_wanted bytes.now) bytes.now)) }
    {
        let named = has_some(front);
        let asked = is_asked(kinds, bytes);
        Reports {
            named,
            is_text: 2 * bytes.len() < 20 && has_letter(front),
            asked,
            note: note_of(kinds, named, bytes),
            other: other_of(named, asked, bytes),
        }
    }

    /// Of a line whose last run has no bytes.
    fn of_none(last: &Run<'_>, why: NoBytes) -> Reports
        ensures { (kinds : Kinds) (buffer : List ℕ) → Says (text_digits last.now.text.now) (Err why) buffer → AreReports kinds (last.now.text.now ∷ []) result }
    {
        match why {
            NoBytes::OddDigits(count) => Reports::of_odd(last.front(), count),
            NoBytes::NoDigits | NoBytes::Empty => Reports::of_empty(last.front()),
        }
    }

    /// Of a line whose last run has this odd number of digits, and this before them.
    fn of_odd(front: &[u8], count: usize) -> Reports
        ensures named { result.named ≡ has_some front.now }
        ensures text { result.is_text ≡ nat_lt count 20 && list_any is_ascii_alphabetic front.now }
        ensures asked { result.asked ≡ false }
        ensures note { result.note ≡ Note.OddDigits count }
        ensures other { result.other ≡ None }
    {
        Reports {
            named: has_some(front),
            is_text: count < 20 && has_letter(front),
            asked: false,
            note: Note::OddDigits(count),
            other: None,
        }
    }

    /// Of a line without digits.
    fn of_empty(front: &[u8]) -> Reports
        ensures named { result.named ≡ has_some front.now }
        ensures text { result.is_text ≡ true }
        ensures asked { result.asked ≡ false }
        ensures note { result.note ≡ Note.NoDigits }
        ensures other { result.other ≡ None }
    {
        Reports {
            named: has_some(front),
            is_text: true,
            asked: false,
            note: Note::NoDigits,
            other: None,
        }
    }

    /// The run before those has these bytes.
    fn see(&mut self, kinds: Kinds, bytes: &[u8])
        ensures { Sees kinds bytes.now self.old self.new }
    {
        if self.asked {
            return;
        }
        if is_asked(kinds, bytes) {
            self.asked = true;
            self.note = note_of(kinds, self.named, bytes);
            self.other = None;
            return;
        }
        if self.other.is_none() {
            self.other = other_of(self.named, false, bytes);
        }
    }

    /// The run before those was looked at, with its bytes at the end of the buffer.
    pub(crate) fn see_run(&mut self, kinds: Kinds, run: &Run<'_>, buffer: &[u8])
        requires { Says (text_digits run.now.text.now) run.now.bytes buffer.now }
        ensures { (last : List ℕ) (texts : List (List ℕ)) → AreReports kinds (last ∷ texts) self.old → AreReports kinds (last ∷ (texts ++ run.now.text.now ∷ [])) self.new }
    {
        match run.bytes {
            Ok(count) => self.see(kinds, &buffer[buffer.len() - count..]),
            Err(_) => {}
        }
    }

    /// Whether the line is only text, and that isn't bad.
    pub(crate) fn lets(&self, strict: bool) -> bool
        ensures { result ≡ (not strict && self.now.is_text) }
    {
        !strict && self.is_text
    }
}
