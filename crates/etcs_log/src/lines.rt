//! What is reported of each line. After an error, part of what is written of a line may be there.

ghost use Rattle.std.specs.Prelude.{◌≡◌, ◌+◌, ◌*◌, ◌<◌, ◌≤◌, ◌^◌, ◌++◌, ◌∷◌, ℕ, List, [], None, IfOk, OnOk, length};
ghost use Rattle.etcs_runs.specs.Answers.{Says};
ghost use Rattle.etcs_runs.specs.Digits.{text_digits};
ghost use Rattle.etcs_runs.specs.RunTexts.{runs_from};
ghost use Rattle.etcs_text.specs.Entries.{entry_value};
ghost use Rattle.etcs_log.specs.Candidates.{AreNone, candidates, last_candidate, last_candidates, line_candidates, message_candidate, named, text_candidates, trial, whole_candidate, whole_candidates};
ghost use Rattle.etcs_log.specs.LogGroups.{Holds};
ghost use Rattle.etcs_log.specs.Logs.{Answered, AnotherSaid, Counted, CountsText, EndText, GroupsText, Noted, TextsAnswered, bad, item, lines_in, no_lines, other, reported};
ghost use Rattle.etcs_log.specs.Reports.{AreReports};
ghost use Rattle.etcs_log.specs.Texts.{item_front};
ghost use Rattle.etcs_log.specs.Tries.{Tries};
ghost use Rattle.etcs_log.specs.Values.{bytes_text, digits_line};

use crate::counts::{Counts, write_tally};
use crate::job::{Good, LogJob, LogTally};
use crate::json_lines::write_json_item;
use crate::kinds::{Kinds, kind_name, may_have, telegram_bytes};
use crate::notes::{Note, write_note};
use crate::others::item_before;
use crate::readers::Readers;
use crate::reports::Reports;
use crate::seen::Seen;
use etcs_group::Groups;
use etcs_packet_text::inner::append_digits;
use etcs_reasons::inner::{are_bits, is_item, packed};
use etcs_runs::Run;
use etcs_text::{Entry, Kind, Verdict};
use std::alloc::{AllocError, Global};

/// Appends what a kind is called and a blank, if there are several kinds.
///
/// # Errors
///
/// If memory runs out.
fn write_front(kinds: Kinds, kind: Kind, out: &mut Vec<u8>) -> Result<(), AllocError>
    ensures { OnOk result (out.new.items ≡ out.old.items ++ named kinds kind) }
{
    if !kinds.several() {
        return Ok(());
    }
    out.extend_from_slice(kind_name(kind).as_bytes())?;
    out.extend_from_slice(b" ")
}

/// Appends the line of a good item.
///
/// # Errors
///
/// If memory runs out.
#[tactic(auto, using(std::proofs::Common::append_assoc))]
fn write_good(kinds: Kinds, kind: Kind, bytes: &[u8], out: &mut Vec<u8>) -> Result<(), AllocError>
    ensures { OnOk result (out.new.items ≡ out.old.items ++ digits_line kinds kind bytes.now) }
{
    write_front(kinds, kind, out)?;
    append_digits(bytes, out)
}

/// What is before the digits of bytes of a run: of its last ones, this many, or of all.
fn item_front<'a>(run: &Run<'a>, is_last: bool, count: usize) -> &'a [u8]
    requires { count < 2 ^ 63 }
    ensures { result.now ≡ item_front is_last count run.now.text.now }
{
    if is_last {
        run.front_of(count)
    } else {
        run.front()
    }
}

/// Reports what lines are, and counts them.
#[derive(Drop)]
pub(crate) struct Answers {
    pub(crate) job: LogJob,
    /// How many lines were read.
    pub(crate) line: u64,
    pub(crate) seen: Seen,
    readers: Readers,
    counts: Counts,
    words: String,
    /// What is reported of other lines, if good ones are written.
    pub(crate) notes: Vec<u8>,
}

impl Answers {
    /// No line was read.
    pub(crate) fn new(alloc: Global, job: LogJob) -> Answers
        ensures job { result.job ≡ job }
        ensures line { result.line ≡ 0 }
        ensures tally { result.seen.tally ≡ no_lines }
        ensures groups { result.seen.groups ≡ [] }
    {
        Answers {
            job,
            line: 0,
            seen: Seen {
                tally: LogTally {
                    items: 0,
                    bad: 0,
                    other: 0,
                    text: 0,
                },
                groups: Groups::new(alloc),
            },
            readers: Readers::new(alloc),
            counts: Counts::new(alloc, job.summary),
            words: String::new(alloc),
            notes: Vec::new(alloc),
        }
    }

    /// Reports the last line, by way of a buffer that has room for its bytes.
    ///
    /// # Errors
    ///
    /// If memory runs out.
    pub(crate) fn take(
        &mut self,
        line: &[u8],
        buffer: &mut [u8],
        text: &mut Vec<u8>,
    ) -> Result<(), AllocError>
        requires short { length line.now ≤ 1048576 }
        requires room { length line.now ≤ 2 * length buffer.old }
        requires few { lines_in self.old.seen.tally < 2 ^ 63 }
        ensures job { self.new.job ≡ self.old.job }
        ensures line { self.new.line ≡ self.old.line }
        ensures ok { OnOk result (Answered self.old.job self.old.line line.now self.old.seen self.new.seen text.old.items text.new.items) }
    {
        let Some(last) = Run::last(line, buffer) else {
            return Ok(());
        };
        if self.take_run(&last, buffer, text)? {
            return self.report_another(&last, buffer, text);
        }
        self.take_before(&last, buffer, text)
    }

    /// Takes the runs before the last one of a line, which is no item, up to one that is an item; or else reports the line.
    ///
    /// # Errors
    ///
    /// If memory runs out.
    #[inline(never)]
    fn take_before(
        &mut self,
        last: &Run<'_>,
        buffer: &mut [u8],
        text: &mut Vec<u8>,
    ) -> Result<(), AllocError>
        requires few { lines_in self.old.seen.tally < 2 ^ 63 }
        requires room { length last.now.text.now ≤ 2 * length buffer.old }
        requires bytes { Says (text_digits last.now.text.now) last.now.bytes buffer.old }
        requires none { AreNone (text_candidates self.old.job.kinds last.now.text.now) }
        ensures job { self.new.job ≡ self.old.job }
        ensures line { self.new.line ≡ self.old.line }
        ensures ok { OnOk result (TextsAnswered self.old.job self.old.line (runs_from last.now) self.old.seen self.new.seen text.old.items text.new.items) }
    {
        let kinds = self.job.kinds;
        let mut reports = Reports::of(kinds, last, buffer);
        let mut next = last.before(buffer);
        'runs: while let Some(run) = next {
            if self.take_run(&run, buffer, text)? {
                return self.report_another(&run, buffer, text);
            }
            reports.see_run(kinds, &run, buffer);
            next = run.before(buffer);
        }
        self.refuse_line(&reports, text)
    }

    /// Takes the bytes of a run, which are at the end of the buffer, as an item, and returns whether they are one.
    ///
    /// # Errors
    ///
    /// If memory runs out.
    #[inline(always)]
    fn take_run(
        &mut self,
        run: &Run<'_>,
        buffer: &[u8],
        text: &mut Vec<u8>,
    ) -> Result<bool, AllocError>
        requires few { lines_in self.old.seen.tally < 2 ^ 63 }
        requires bytes { Says (text_digits run.now.text.now) run.now.bytes buffer.now }
        ensures job { self.new.job ≡ self.old.job }
        ensures line { self.new.line ≡ self.old.line }
        ensures ok { IfOk result (Tries self.old self.new text.old.items text.new.items (text_candidates self.old.job.kinds run.now.text.now)) }
    {
        match run.bytes {
            Ok(count) => self.take_bytes(run, &buffer[buffer.len() - count..], text),
            Err(_) => Ok(false),
        }
    }

    /// Takes the bytes of a run, all or the last of them, as an item, and returns whether they are one.
    ///
    /// # Errors
    ///
    /// If memory runs out.
    fn take_bytes(
        &mut self,
        run: &Run<'_>,
        bytes: &[u8],
        text: &mut Vec<u8>,
    ) -> Result<bool, AllocError>
        requires few { lines_in self.old.seen.tally < 2 ^ 63 }
        ensures job { self.new.job ≡ self.old.job }
        ensures line { self.new.line ≡ self.old.line }
        ensures ok { IfOk result (Tries self.old self.new text.old.items text.new.items (candidates self.old.job.kinds run.now.text.now bytes.now)) }
    {
        if self.take_whole(run, bytes, text)? {
            return Ok(true);
        }
        self.take_last(run, bytes, text)
    }

    /// Takes all bytes of a run as an item of a kind that is asked for, and returns whether they are one.
    ///
    /// # Errors
    ///
    /// If memory runs out.
    fn take_whole(
        &mut self,
        run: &Run<'_>,
        bytes: &[u8],
        text: &mut Vec<u8>,
    ) -> Result<bool, AllocError>
        requires few { lines_in self.old.seen.tally < 2 ^ 63 }
        ensures job { self.new.job ≡ self.old.job }
        ensures line { self.new.line ≡ self.old.line }
        ensures ok { IfOk result (Tries self.old self.new text.old.items text.new.items (whole_candidates self.old.job.kinds run.now.text.now bytes.now)) }
    {
        if self.take_telegram(Kind::Long, run, bytes, text)? {
            return Ok(true);
        }
        if self.take_telegram(Kind::Short, run, bytes, text)? {
            return Ok(true);
        }
        self.take_message(run, bytes, text)
    }

    /// Takes the last bytes of a run as a telegram, if there are more bytes, and returns whether they are one.
    ///
    /// # Errors
    ///
    /// If memory runs out.
    fn take_last(
        &mut self,
        run: &Run<'_>,
        bytes: &[u8],
        text: &mut Vec<u8>,
    ) -> Result<bool, AllocError>
        requires few { lines_in self.old.seen.tally < 2 ^ 63 }
        ensures job { self.new.job ≡ self.old.job }
        ensures line { self.new.line ≡ self.old.line }
        ensures ok { IfOk result (Tries self.old self.new text.old.items text.new.items (last_candidates self.old.job.kinds run.now.text.now bytes.now)) }
    {
        if self.take_end(Kind::Long, run, bytes, text)? {
            return Ok(true);
        }
        self.take_end(Kind::Short, run, bytes, text)
    }

    /// Takes the bytes as a telegram of the kind or as its bits, if the kind is asked for, and returns whether they are one.
    ///
    /// # Errors
    ///
    /// If memory runs out.
    fn take_telegram(
        &mut self,
        kind: Kind,
        run: &Run<'_>,
        bytes: &[u8],
        text: &mut Vec<u8>,
    ) -> Result<bool, AllocError>
        requires few { lines_in self.old.seen.tally < 2 ^ 63 }
        ensures job { self.new.job ≡ self.old.job }
        ensures line { self.new.line ≡ self.old.line }
        ensures ok { IfOk result (Tries self.old self.new text.old.items text.new.items (whole_candidate self.old.job.kinds kind run.now.text.now bytes.now)) }
    {
        if !self.job.kinds.contains(kind) {
            return Ok(false);
        }
        if are_bits(kind, bytes) {
            let packed = packed(bytes);
            return self.take_item(kind, run, false, &packed[..telegram_bytes(kind)], text);
        }
        self.take_item(kind, run, false, bytes, text)
    }

    /// Takes the bytes as a message, if a way is asked for, and returns whether they are one.
    ///
    /// # Errors
    ///
    /// If memory runs out.
    fn take_message(
        &mut self,
        run: &Run<'_>,
        bytes: &[u8],
        text: &mut Vec<u8>,
    ) -> Result<bool, AllocError>
        requires few { lines_in self.old.seen.tally < 2 ^ 63 }
        ensures job { self.new.job ≡ self.old.job }
        ensures line { self.new.line ≡ self.old.line }
        ensures ok { IfOk result (Tries self.old self.new text.old.items text.new.items (message_candidate self.old.job.kinds run.now.text.now bytes.now)) }
    {
        let kinds = self.job.kinds;
        if !kinds.asks_message(bytes) {
            return Ok(false);
        }
        self.take_item(kinds.message_way(bytes), run, false, bytes, text)
    }

    /// Takes the last of more bytes as a telegram of the kind, if it is asked for, and returns whether they are one.
    ///
    /// # Errors
    ///
    /// If memory runs out.
    fn take_end(
        &mut self,
        kind: Kind,
        run: &Run<'_>,
        bytes: &[u8],
        text: &mut Vec<u8>,
    ) -> Result<bool, AllocError>
        requires few { lines_in self.old.seen.tally < 2 ^ 63 }
        ensures job { self.new.job ≡ self.old.job }
        ensures line { self.new.line ≡ self.old.line }
        ensures ok { IfOk result (Tries self.old self.new text.old.items text.new.items (last_candidate self.old.job.kinds kind run.now.text.now bytes.now)) }
    {
        let count = telegram_bytes(kind);
        if !self.job.kinds.contains(kind) || bytes.len() <= count {
            return Ok(false);
        }
        self.take_item(kind, run, true, &bytes[bytes.len() - count..], text)
    }

    /// Takes these bytes as an item of the kind, and returns whether they are one.
    ///
    /// # Errors
    ///
    /// If memory runs out.
    fn take_item(
        &mut self,
        kind: Kind,
        run: &Run<'_>,
        is_last: bool,
        bytes: &[u8],
        text: &mut Vec<u8>,
    ) -> Result<bool, AllocError>
        requires few { lines_in self.old.seen.tally < 2 ^ 63 }
        ensures job { self.new.job ≡ self.old.job }
        ensures line { self.new.line ≡ self.old.line }
        ensures ok { IfOk result (Tries self.old self.new text.old.items text.new.items (trial kind is_last run.now.text.now bytes.now ∷ [])) }
    {
        if !may_have(kind, bytes.len()) {
            return Ok(false);
        }
        if self.job.needs_values() {
            return self.read_item(kind, run, is_last, bytes, text);
        }
        if !is_item(*text.allocator(), kind, bytes)? {
            return Ok(false);
        }
        self.add_bytes(kind, bytes, text)?;
        Ok(true)
    }

    /// Takes these bytes as an item of the kind, of which a reader makes a value, and returns whether they are one.
    ///
    /// # Errors
    ///
    /// If memory runs out.
    fn read_item(
        &mut self,
        kind: Kind,
        run: &Run<'_>,
        is_last: bool,
        bytes: &[u8],
        text: &mut Vec<u8>,
    ) -> Result<bool, AllocError>
        requires few { lines_in self.old.seen.tally < 2 ^ 63 }
        ensures job { self.new.job ≡ self.old.job }
        ensures line { self.new.line ≡ self.old.line }
        ensures ok { IfOk result (Tries self.old self.new text.old.items text.new.items (trial kind is_last run.now.text.now bytes.now ∷ [])) }
    {
        match self.readers.read(kind, bytes)? {
            Verdict::Item(entry) => {
                self.add_item(kind, run, is_last, &entry, bytes, text)?;
                if !self.job.groups {
                    drop(entry);
                    return Ok(true);
                }
                self.hold(entry)?;
                Ok(true)
            }
            _ => Ok(false),
        }
    }

    /// Counts an item of these bytes and what is in it, and writes its line if that is asked for.
    ///
    /// # Errors
    ///
    /// If memory runs out.
    fn add_item(
        &mut self,
        kind: Kind,
        run: &Run<'_>,
        is_last: bool,
        entry: &Entry,
        bytes: &[u8],
        text: &mut Vec<u8>,
    ) -> Result<(), AllocError>
        requires few { lines_in self.old.seen.tally < 2 ^ 63 }
        ensures job { self.new.job ≡ self.old.job }
        ensures line { self.new.line ≡ self.old.line }
        ensures groups { self.new.seen.groups ≡ self.old.seen.groups }
        ensures ok { OnOk result (Counted self.old.job self.old.line (item (trial kind is_last run.now.text.now bytes.now) (entry_value entry.now) None) self.old.seen.tally self.new.seen.tally text.old.items text.new.items) }
    {
        self.counts.add_item(kind, entry);
        self.seen.tally.items += 1;
        if !self.job.picks(entry) {
            return Ok(());
        }
        match self.job.good {
            Good::Left => Ok(()),
            Good::Digits => write_good(self.job.kinds, kind, bytes, text),
            Good::Json => {
                write_json_item(
                    self.line,
                    item_front(run, is_last, bytes.len()),
                    entry,
                    text,
                )
            },
        }
    }

    /// Counts an item of these bytes, and writes its digits if they are asked for.
    ///
    /// # Errors
    ///
    /// If memory runs out.
    fn add_bytes(&mut self, kind: Kind, bytes: &[u8], text: &mut Vec<u8>) -> Result<(), AllocError>
        requires few { lines_in self.old.seen.tally < 2 ^ 63 }
        ensures job { self.new.job ≡ self.old.job }
        ensures line { self.new.line ≡ self.old.line }
        ensures groups { self.new.seen.groups ≡ self.old.seen.groups }
        ensures tally { self.new.seen.tally ≡ record self.old.seen.tally { items = self.old.seen.tally.items + 1 } }
        ensures ok { OnOk result (text.new.items ≡ text.old.items ++ bytes_text self.old.job.good self.old.job.kinds kind bytes.now) }
    {
        self.seen.tally.items += 1;
        match self.job.good {
            Good::Left | Good::Json => Ok(()),
            Good::Digits => write_good(self.job.kinds, kind, bytes, text),
        }
    }

    /// Adds a telegram to the groups.
    ///
    /// # Errors
    ///
    /// If memory runs out.
    fn hold(&mut self, entry: Entry) -> Result<(), AllocError>
        ensures job { self.new.job ≡ self.old.job }
        ensures line { self.new.line ≡ self.old.line }
        ensures tally { self.new.seen.tally ≡ self.old.seen.tally }
        ensures ok { OnOk result (Holds (entry_value entry) self.old.seen.groups self.new.seen.groups) }
    {
        match entry {
            Entry::Telegram(telegram) => match self.seen.groups.add(telegram) {
                Ok(_) => Ok(()),
                Err(AllocError) => Err(AllocError),
            },
            Entry::Message(_) | Entry::Train(_) => Ok(()),
        }
    }

    /// Reports another item before the one of a run, if there is one and lines are reported.
    ///
    /// # Errors
    ///
    /// If memory runs out.
    fn report_another(
        &mut self,
        run: &Run<'_>,
        buffer: &mut [u8],
        text: &mut Vec<u8>,
    ) -> Result<(), AllocError>
        requires room { length run.now.text.now ≤ 2 * length buffer.old }
        ensures job { self.new.job ≡ self.old.job }
        ensures line { self.new.line ≡ self.old.line }
        ensures seen { self.new.seen ≡ self.old.seen }
        ensures ok { OnOk result (AnotherSaid self.old.job self.old.line (runs_from run.now) text.old.items text.new.items) }
    {
        let quiet = self.job.quiet;
        if quiet {
            return Ok(());
        }
        match item_before(*text.allocator(), self.job.kinds, run, buffer)? {
            Some(count) => self.report(&Note::Another(count), text),
            None => Ok(()),
        }
    }

    /// Reports a line that has no item: as one of another kind, by its length, or as bad; or counts it as text.
    ///
    /// # Errors
    ///
    /// If memory runs out.
    fn refuse_line(&mut self, reports: &Reports, text: &mut Vec<u8>) -> Result<(), AllocError>
        requires few { lines_in self.old.seen.tally < 2 ^ 63 }
        ensures job { self.new.job ≡ self.old.job }
        ensures line { self.new.line ≡ self.old.line }
        ensures ok { OnOk result ((texts : List (List ℕ)) → AreNone (line_candidates self.old.job.kinds texts) → AreReports self.old.job.kinds texts reports.now → TextsAnswered self.old.job self.old.line texts self.old.seen self.new.seen text.old.items text.new.items) }
    {
        match &reports.other {
            Some(other) => self.pass_other(other, text),
            None => self.refuse_text(reports, text),
        }
    }

    /// Counts a line of no other kind as text, or reports why it is bad.
    ///
    /// # Errors
    ///
    /// If memory runs out.
    fn refuse_text(&mut self, reports: &Reports, text: &mut Vec<u8>) -> Result<(), AllocError>
        requires few { lines_in self.old.seen.tally < 2 ^ 63 }
        requires other { reports.now.other ≡ None }
        ensures job { self.new.job ≡ self.old.job }
        ensures line { self.new.line ≡ self.old.line }
        ensures ok { OnOk result ((texts : List (List ℕ)) → AreNone (line_candidates self.old.job.kinds texts) → AreReports self.old.job.kinds texts reports.now → TextsAnswered self.old.job self.old.line texts self.old.seen self.new.seen text.old.items text.new.items) }
    {
        if reports.lets(self.job.strict) {
            self.seen.tally.text += 1;
            return Ok(());
        }
        self.refuse(&reports.note, text)
    }

    /// Reports that a line is of another kind.
    ///
    /// # Errors
    ///
    /// If memory runs out.
    fn pass_other(&mut self, note: &Note, text: &mut Vec<u8>) -> Result<(), AllocError>
        requires few { lines_in self.old.seen.tally < 2 ^ 63 }
        ensures job { self.new.job ≡ self.old.job }
        ensures line { self.new.line ≡ self.old.line }
        ensures ok { OnOk result (Noted self.old.job self.old.line (other note.now) self.old.seen self.new.seen text.old.items text.new.items) }
    {
        self.seen.tally.other += 1;
        self.report(note, text)
    }

    /// Reports why a line is bad.
    ///
    /// # Errors
    ///
    /// If memory runs out.
    pub(crate) fn refuse(&mut self, note: &Note, text: &mut Vec<u8>) -> Result<(), AllocError>
        requires few { lines_in self.old.seen.tally < 2 ^ 63 }
        ensures job { self.new.job ≡ self.old.job }
        ensures line { self.new.line ≡ self.old.line }
        ensures ok { OnOk result (Noted self.old.job self.old.line (bad note.now) self.old.seen self.new.seen text.old.items text.new.items) }
    {
        self.seen.tally.bad += 1;
        self.counts.add_note(note)?;
        self.report(note, text)
    }

    /// Reports why a line is no item.
    ///
    /// # Errors
    ///
    /// If memory runs out.
    fn report(&mut self, note: &Note, text: &mut Vec<u8>) -> Result<(), AllocError>
        ensures job { self.new.job ≡ self.old.job }
        ensures line { self.new.line ≡ self.old.line }
        ensures seen { self.new.seen ≡ self.old.seen }
        ensures ok { OnOk result (text.new.items ≡ text.old.items ++ reported self.old.job self.old.line note.now) }
    {
        if self.job.quiet {
            return Ok(());
        }
        self.words.clear();
        write_note(self.job.good, self.line, note, &mut self.words)?;
        if self.job.good.is_written() {
            self.notes.extend_from_slice(self.words.as_bytes())
        } else {
            text.extend_from_slice(self.words.as_bytes())
        }
    }

    /// Appends what comes after the last line: the counts and the groups, if they are asked for.
    ///
    /// # Errors
    ///
    /// If memory runs out.
    pub(crate) fn write_end(&mut self, text: &mut Vec<u8>) -> Result<(), AllocError>
        ensures job { self.new.job ≡ self.old.job }
        ensures tally { self.new.seen.tally ≡ self.old.seen.tally }
        ensures ok { OnOk result ((end : List ℕ) × EndText self.old.job self.old.seen.tally self.old.seen.groups end × (text.new.items ≡ text.old.items ++ end)) }
    {
        self.write_counts(text)?;
        self.write_groups(text)
    }

    /// Appends a line for each group, if they are asked for.
    ///
    /// # Errors
    ///
    /// If memory runs out.
    fn write_groups(&mut self, text: &mut Vec<u8>) -> Result<(), AllocError>
        ensures job { self.new.job ≡ self.old.job }
        ensures seen { self.new.seen ≡ self.old.seen }
        ensures ok { OnOk result ((lines : List ℕ) × GroupsText self.old.job self.old.seen.groups lines × (text.new.items ≡ text.old.items ++ lines)) }
    {
        if !self.job.groups {
            return Ok(());
        }
        if self.job.good.is_written() {
            self.seen.groups.write(&mut self.notes)
        } else {
            self.seen.groups.write(text)
        }
    }

    /// Appends the counts, one per line, if they are asked for.
    ///
    /// # Errors
    ///
    /// If memory runs out.
    fn write_counts(&mut self, text: &mut Vec<u8>) -> Result<(), AllocError>
        ensures job { self.new.job ≡ self.old.job }
        ensures seen { self.new.seen ≡ self.old.seen }
        ensures ok { OnOk result ((counts : List ℕ) × CountsText self.old.job self.old.seen.tally counts × (text.new.items ≡ text.old.items ++ counts)) }
    {
        if !self.job.summary {
            return Ok(());
        }
        self.words.clear();
        self.counts.write(self.job.kinds, &mut self.words)?;
        if self.job.good.is_written() {
            write_tally(&self.seen.tally, self.words.as_str(), &mut self.notes)
        } else {
            write_tally(&self.seen.tally, self.words.as_str(), text)
        }
    }
}
