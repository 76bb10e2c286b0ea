//! Lines of JSON, one item each.

ghost use Rattle.std.specs.Prelude.{◌≡◌, ◌+◌, ◌<◌, ◌≤◌, ◌⊎◌, ◌++◌, ◌∷◌, ℕ, List, [], All, drop, false, length, IfOk, IfErr, IfSome, IsNone, IsTrue, OnErr, OnOk};
ghost use Rattle.serde_json.specs.Written.{compact_text};
ghost use Rattle.etcs_vars.specs.Reading.{Reading, spelled};
ghost use Rattle.etcs_text.specs.Entries.{EntryReads, EntryValue, entry_kind, entry_value};
ghost use Rattle.etcs_text.specs.Trees.{json_tree};
ghost use Rattle.etcs_runs.specs.Handling.{LinesTaken};
ghost use Rattle.etcs_runs.specs.Lines.{IsAfterLf};
ghost use Rattle.etcs_runs.specs.declared.fault.RunFault.{RunFault};
ghost use Rattle.etcs_runs.specs.declared.form.Form.TheVariants as form;
ghost use Rattle.etcs_stream.specs.Engines.{promises};
ghost use Rattle.etcs_stream.specs.JsonItems.{IsItemLine};
ghost use Rattle.etcs_stream.specs.Lines.{most_characters};
ghost use Rattle.etcs_stream.specs.laws.Printing.{sound};
ghost use Rattle.etcs_stream.specs.laws.StandLaws.{json_long, json_outputs, json_said};
ghost use Rattle.etcs_stream.specs.Stands.{JsonTook};
ghost use Rattle.etcs_stream.specs.Taking.{TakesFirst, TakesJson, HaltsJson, Says};
ghost use Rattle.etcs_stream.specs.Printers.{Closes, IsGroupable, OutputsItem, nothing_reported};

use crate::byte_items::MOST_ITEMS;
use crate::job::{Command, Job, Tally};
use crate::printer::Printer;
use etcs_json::inner::line_item;
use etcs_json::{JsonFault, from_line};
use etcs_packet_text::inner::Page;
use etcs_runs::inner::LineHandler;
use etcs_runs::{MOST_LINE, RunFault};
use etcs_text::Entry;
use etcs_vars::BitPage;
use std::alloc::{AllocError, Global};

/// Reports the items of lines of JSON.
#[derive(Drop)]
pub(crate) struct JsonLines {
    alloc: Global,
    job: Job,
    printer: Printer,
    /// The bits of a line's item.
    item: BitPage,
    ghost form: { job.from ≡ form.Json },
    ghost groupable: { IsGroupable job },
}

impl JsonLines {
    /// A handler that took nothing yet.
    pub(crate) fn new(alloc: Global, job: Job) -> JsonLines
        requires form { job.from ≡ form.Json }
        requires groupable { IsGroupable job }
        ensures job { result.job ≡ job }
        ensures took { JsonTook job result.printer [] [] }
    {
        JsonLines {
            alloc,
            job,
            printer: Printer::new(),
            item: BitPage::new(),
        }
    }

    /// Reports the item of the line with which a text begins, if the line is as `json_line` writes it, and returns how many
    /// bytes it has with its LF. It may always return `None`, and then nothing was appended.
    ///
    /// # Errors
    ///
    /// `AllocError` if out of memory. Nothing was appended.
    #[inline(always)]
    fn take_line(&mut self, rest: &[u8], page: &mut Page) -> Result<Option<usize>, AllocError>
        requires reported { self.old.printer.count ≤ 1000000 }
        requires alone { self.old.job.command ≡ Command.Group → ⊥ }
        ensures job { self.new.job ≡ self.old.job }
        ensures some { IfOk result (λ o. IfSome o (λ n. TakesFirst self.old.job rest.now self.old.printer self.new.printer page.old page.new n)) }
        ensures none { IfOk result (λ o. IsNone o → (self.new.printer ≡ self.old.printer) × (page.new ≡ page.old)) }
        ensures err { OnErr result ((self.new.printer ≡ self.old.printer) × (page.new ≡ page.old)) }
    {
        if self.printer.count() == MOST_ITEMS {
            return Ok(None);
        }
        let Some(count) = line_item(self.job.kind, rest, &mut self.item) else {
            return Ok(None);
        };
        let Some(end) = end_of_line(&rest[count..]) else {
            return Ok(None);
        };
        let line = &rest[..count];
        let printed = print_item(&mut self.printer, self.job, line, &self.item, page)?;
        if printed {
            Ok(Some(count + end))
        } else {
            Ok(None)
        }
    }

    /// Reports the items of lines at the front of a text, which lie in its first `whole` bytes, as far as they are as
    /// `json_line` writes them, and returns how many bytes and lines these are.
    ///
    /// # Errors
    ///
    /// `AllocError` if out of memory. What was reported before was appended.
    #[inline(always)]
    fn take_lines(
        &mut self,
        rest: &[u8],
        whole: usize,
        page: &mut Page,
    ) -> Result<(usize, u64), AllocError>
        requires reported { self.old.printer.count ≤ 1000000 }
        requires alone { self.old.job.command ≡ Command.Group → ⊥ }
        requires whole { IsAfterLf rest.now whole }
        ensures job { self.new.job ≡ self.old.job }
        ensures ok { IfOk result (λ t. LinesTaken (JsonTook self.old.job self.old.printer) (JsonTook self.old.job self.new.printer) rest.now whole page.old page.new t.0 t.1) }
        ensures err { OnErr result ((bytes : ℕ) × (lines : ℕ) × LinesTaken (JsonTook self.old.job self.old.printer) (JsonTook self.old.job self.new.printer) rest.now whole page.old page.new bytes lines) }
    {
        let mut at = 0;
        let mut lines = 0;
        while at < whole {
            let Some(count) = self.take_line(&rest[at..], page)? else {
                return Ok((at, lines));
            };
            at += count;
            lines += 1;
        }
        Ok((at, lines))
    }

    /// The item of a line.
    ///
    /// # Errors
    ///
    /// `BadJson` if no item of the kind has this JSON, or the line is too long; `Refused` if it was stored when fewer
    /// packets were typed and no item has its bits; `Memory`.
    fn entry_in(&self, line: &[u8], number: u64) -> Result<Entry, RunFault>
        requires some { 0 < length line.now }
        requires few { self.now.printer.count < 1000000 }
        ensures ok { IfOk result (λ e. IsItemLine self.now.job.kind line.now (entry_value e)) }
        ensures err { IfErr result (λ e. HaltsJson self.now.job line.now number self.now.printer e) }
    {
        if line.len() > MOST_LINE {
            return Err(RunFault::BadJson { line: number });
        }
        match from_line(self.alloc, self.job.kind, line) {
            Ok(entry) => Ok(entry),
            Err(JsonFault::Shape) => Err(RunFault::BadJson { line: number }),
            Err(JsonFault::Refused { bit, var }) => Err(RunFault::Refused {
                item: self.printer.count() + 1,
                bit,
                var,
            }),
            Err(JsonFault::Memory) => Err(RunFault::Memory),
        }
    }

    /// Reports the item of a line, or nothing if the line is empty.
    ///
    /// # Errors
    ///
    /// `Endless` if a run may have no more items, else as for `entry_in`. Nothing was appended.
    fn handle(&mut self, line: &[u8], number: u64, page: &mut Page) -> Result<(), RunFault>
        requires reported { self.old.printer.count ≤ 1000000 }
        ensures job { self.new.job ≡ self.old.job }
        ensures ok { OnOk result (TakesJson self.old.job line.now self.old.printer self.new.printer page.old page.new) }
        ensures err { IfErr result (λ e. HaltsJson self.old.job line.now number self.old.printer e × (page.new ≡ page.old)) }
        ensures said { OnErr result (Says self.old.job.command self.old.printer self.new.printer page.old page.new) }
    {
        if line.is_empty() {
            return Ok(());
        }
        if self.printer.count() == MOST_ITEMS {
            return Err(RunFault::Endless);
        }
        let entry = self.entry_in(line, number)?;
        match self.printer.print(self.job.command, entry, page) {
            Ok(()) => Ok(()),
            Err(AllocError) => Err(RunFault::Memory),
        }
    }

    /// Ends the input: appends what the command writes at the end, or nothing.
    fn end(&self, page: &mut Page) -> Result<Tally, RunFault>
        ensures ok { IfOk result (λ tally. (last : List ℕ) × Closes self.now.job.command self.now.printer last tally × (page.new ≡ page.old ++ last)) }
        ensures err { IfErr result (λ e. (page.new ≡ page.old) × (e ≡ RunFault.Memory)) }
    {
        match self.printer.close(self.alloc, self.job.command, page) {
            Ok(tally) => Ok(tally),
            Err(AllocError) => Err(RunFault::Memory),
        }
    }
}

/// Returns how many characters end the line that ends where a text begins: a LF, or a CR and a LF.
#[inline(always)]
fn end_of_line(text: &[u8]) -> Option<usize>
    ensures { IfSome result (λ n. (cr : List ℕ) × (beyond : List ℕ) × ((cr ≡ []) ⊎ (cr ≡ 13 ∷ [])) × (text.now ≡ cr ++ 10 ∷ beyond) × (n ≡ length cr + 1)) }
{
    if !text.is_empty() && text[0] == b'\n' {
        return Some(1);
    }
    if text.len() > 1 && text[0] == b'\r' && text[1] == b'\n' {
        return Some(2);
    }
    None
}

/// Reports the next item, whose JSON is this line and whose bits these, and returns whether it did. It may always return
/// `false`, and then nothing was appended.
///
/// # Errors
///
/// `AllocError` if out of memory. Nothing was appended.
#[inline(always)]
fn print_item(
    printer: &mut Printer,
    job: Job,
    line: &[u8],
    item: &BitPage,
    page: &mut Page,
) -> Result<bool, AllocError>
    requires few { printer.old.count < 1000000 }
    requires item { (e : EntryValue) × (r : Reading) × EntryReads job.kind e r × (line.now ≡ compact_text (json_tree e)) × (item.now ≡ spelled r) }
    ensures ok { (e : EntryValue) (r : Reading) → EntryReads job.kind e r → line.now ≡ compact_text (json_tree e) → item.now ≡ spelled r → IfOk result (λ written. IsTrue written → (added : List ℕ) × OutputsItem job.command e printer.old added printer.new × (page.new ≡ page.old ++ added)) }
    ensures none { IfOk result (λ written. written ≡ false → (printer.new ≡ printer.old) × (page.new ≡ page.old)) }
    ensures err { OnErr result ((printer.new ≡ printer.old) × (page.new ≡ page.old)) }
{
    let bytes = item.bytes();
    are_bytes(bytes);
    let count = item.len() / 8;
    printer.print_line(job.command, job.kind, line, bytes, count, page)
}

/// For callers: each byte is below 256.
#[inline(always)]
fn are_bytes(bytes: &[u8])
    ensures { All (λ b. b < 256) bytes.now }
{
    let _ = bytes;
}

impl LineHandler for JsonLines {
    type Job = Job;

    type Tally = Tally;

    ghost job = { λ s. s.job };

    ghost promises = { promises };

    ghost most = { λ job. most_characters job.from };

    ghost took = { λ s lines output. JsonTook s.job s.printer lines output };

    ghost said = { λ s output. Says s.job.command nothing_reported s.printer [] output };

    fn most(&self) -> usize {
        MOST_LINE
    }

    fn beyond(&self) -> usize {
        64
    }

    fn handle_lines(
        &mut self,
        rest: &[u8],
        whole: usize,
        page: &mut Page,
    ) -> Result<(usize, u64), RunFault> {
        if self.job.command == Command::Group {
            return Ok((0, 0));
        }
        Ok(self.take_lines(rest, whole, page)?)
    }

    fn handle_line(&mut self, line: &[u8], number: u64, page: &mut Page) -> Result<(), RunFault> {
        self.handle(line, number, page)
    }

    fn refuse_long(&mut self, number: u64, _page: &mut Page) -> Result<(), RunFault> {
        if self.printer.count() == MOST_ITEMS {
            Err(RunFault::Endless)
        } else {
            Err(RunFault::BadJson { line: number })
        }
    }

    fn handle_last(
        &mut self,
        line: &[u8],
        number: u64,
        page: &mut Page,
    ) -> Result<Tally, RunFault> {
        self.handle(line, number, page)?;
        self.end(page)
    }

    fn close(&mut self, page: &mut Page) -> Result<Tally, RunFault> {
        self.end(page)
    }

    ghost sound = { λ s. sound s.job };

    ghost took_outputs = { λ s lines begun output h l. json_outputs s.job s.printer lines begun output h l };

    ghost long_outputs = { λ s lines part output h l long. json_long s.job s.printer lines part output h l long };

    ghost took_said = { λ s lines output h. json_said s.job s.printer lines output h };
}
