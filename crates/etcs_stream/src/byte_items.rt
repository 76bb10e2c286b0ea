//! The items of bytes, one after another.

ghost use Rattle.std.specs.Prelude.{◌≡◌, ◌+◌, ◌<◌, ◌≤◌, ◌⊎◌, ◌++◌, ℕ, List, [], length, IfErr, IfOk, IfSome, IsNone, OnErr, OnOk};
ghost use Rattle.etcs_bits.specs.Bits.{bits};
ghost use Rattle.etcs_vars.specs.Reading.{readings_of};
ghost use Rattle.etcs_vars.specs.Walking.{Refuses};
ghost use Rattle.etcs_text.specs.Entries.{EntryReads, EntryValue, entry_kind};
ghost use Rattle.etcs_runs.specs.declared.fault.RunFault.{RunFault};
ghost use Rattle.etcs_text.specs.Readers.{seen_bits, reading, finished};
ghost use Rattle.etcs_stream.specs.Readers.{Awaits, HasRoom};
ghost use Rattle.etcs_stream.specs.Taking.{Advances, Halts, Says, TakesFront};
ghost use Rattle.etcs_stream.specs.Printers.{Closes, IsGroupable, OutputsItem, nothing_reported};

use crate::job::{Command, Job, Tally};
use crate::printer::Printer;
use etcs_packet_text::inner::Page;
use etcs_runs::RunFault;
use etcs_runs::inner::MOST_READ;
use etcs_telegram::Size;
use etcs_text::inner::refused_at;
use etcs_text::{EntryReader, Kind};
use etcs_vars::{Fed, ReadFault, Var};
use std::alloc::{AllocError, Global};

/// How many items a run has at most.
pub(crate) const MOST_ITEMS: u64 = 1_000_000;

/// The item that isn't whole yet, and what was reported.
#[derive(Drop)]
pub(crate) struct ByteItems {
    alloc: Global,
    pub(crate) job: Job,
    pub(crate) reader: EntryReader,
    pub(crate) printer: Printer,
    ghost groupable: { IsGroupable job },
}

/// Takes the item that the bytes begin with without a value of it, if the reader has begun none, and returns how many bytes it
/// has. It may always return `None`.
#[inline(always)]
fn take_seen(
    job: Job,
    reader: &EntryReader,
    printer: &mut Printer,
    bytes: &[u8],
    page: &mut Page,
) -> Result<Option<usize>, RunFault>
    requires waits { Awaits job.kind reader.now }
    requires few { printer.old.count < 1000000 }
    ensures taken { IfOk result (λ o. IfSome o (λ n. TakesFront job reader.now reader.now printer.old printer.new bytes.now page.old page.new n)) }
    ensures none { IfOk result (λ o. IsNone o → (printer.new ≡ printer.old) × (page.new ≡ page.old)) }
    ensures err { IfErr result (λ e. Halts job.kind job.command (seen_bits reader.now.progress) printer.old bytes.now page.old page.new e × Says job.command printer.old printer.new page.old page.new) }
{
    if reader.bits_seen() > 0 {
        return Ok(None);
    }
    match printer.print_seen(job.command, job.kind, bytes, page) {
        Ok(taken) => Ok(taken),
        Err(AllocError) => Err(RunFault::Memory),
    }
}

impl ByteItems {
    /// A reader that was fed nothing, with nothing reported.
    pub(crate) fn new(alloc: Global, job: Job) -> ByteItems
        requires { IsGroupable job }
        ensures job { result.job ≡ job }
        ensures waits { Awaits job.kind result.reader }
        ensures seen { seen_bits result.reader.progress ≡ [] }
        ensures reported { result.printer ≡ nothing_reported }
    {
        ByteItems {
            alloc,
            job,
            reader: EntryReader::new(alloc, job.kind),
            printer: Printer::new(),
        }
    }

    /// How many bytes the next read asks for: as many as end with a telegram; messages have no fixed length.
    pub(crate) fn wanted(&self) -> usize
        ensures some { 0 < result }
        ensures most { result ≤ 4096 }
    {
        let size = match self.job.kind {
            Kind::Long => Size::Long,
            Kind::Short => Size::Short,
            Kind::Radio | Kind::Train => return MOST_READ,
        };
        let bytes = size.container_bytes();
        let seen = self.reader.bits_seen() / 8 % bytes;
        (MOST_READ + seen) / bytes * bytes - seen
    }

    /// Takes bytes, and appends the text of each item that becomes whole.
    ///
    /// # Errors
    ///
    /// `Refused` with the number of the item, bit and variable; `Endless` if there is a byte after the last item that a run
    /// may have; `Memory`. The text of the items before was appended, but after `Memory` perhaps not that of all of them.
    pub(crate) fn take_bytes(&mut self, bytes: &[u8], page: &mut Page) -> Result<(), RunFault>
        requires waits { Awaits self.old.job.kind self.old.reader }
        requires reported { self.old.printer.count ≤ 1000000 }
        ensures job { self.new.job ≡ self.old.job }
        ensures waits { OnOk result (Awaits self.old.job.kind self.new.reader) }
        ensures reported { OnOk result (self.new.printer.count ≤ 1000000) }
        ensures room { HasRoom self.old.printer.count (seen_bits self.old.reader.progress) → OnOk result (HasRoom self.new.printer.count (seen_bits self.new.reader.progress)) }
        ensures ok { OnOk result (Advances self.old.job.kind self.old.job.command (seen_bits self.old.reader.progress) (seen_bits self.new.reader.progress) self.old.printer self.new.printer bytes.now page.old page.new) }
        ensures err { IfErr result (λ e. Halts self.old.job.kind self.old.job.command (seen_bits self.old.reader.progress) self.old.printer bytes.now page.old page.new e) }
        ensures said { OnErr result (Says self.old.job.command self.old.printer self.new.printer page.old page.new) }
    {
        let mut rest = bytes;
        while !rest.is_empty() {
            let taken = self.take_front(rest, page)?;
            rest = &rest[taken..];
        }
        Ok(())
    }

    /// Ends the input: appends what the command writes then.
    ///
    /// # Errors
    ///
    /// `Truncated` if an item isn't whole, with the number of its bits; `Memory`. Nothing was appended.
    pub(crate) fn finish(&self, page: &mut Page) -> Result<Tally, RunFault>
        requires waits { Awaits self.now.job.kind self.now.reader }
        requires reported { self.now.printer.count ≤ 1000000 }
        ensures whole { OnOk result (seen_bits self.now.reader.progress ≡ []) }
        ensures ok { IfOk result (λ tally. (last : List ℕ) × Closes self.now.job.command self.now.printer last tally × (page.new ≡ page.old ++ last)) }
        ensures err { IfErr result (λ e. (page.new ≡ page.old) × (((e ≡ RunFault.Truncated (self.now.printer.count + 1) (length (seen_bits self.now.reader.progress))) × (0 < length (seen_bits self.now.reader.progress))) ⊎ (e ≡ RunFault.Memory))) }
    {
        let bits = self.reader.bits_seen();
        if bits > 0 {
            return Err(RunFault::Truncated {
                item: self.printer.count() + 1,
                bits: bits as u64,
            });
        }
        match self.printer.close(self.alloc, self.job.command, page) {
            Ok(tally) => Ok(tally),
            Err(AllocError) => Err(RunFault::Memory),
        }
    }

    /// Takes bytes up to the end of an item, which it reports, or all of them, and returns how many.
    #[inline(always)]
    fn take_front(&mut self, bytes: &[u8], page: &mut Page) -> Result<usize, RunFault>
        requires some { 0 < length bytes.now }
        requires waits { Awaits self.old.job.kind self.old.reader }
        requires reported { self.old.printer.count ≤ 1000000 }
        ensures job { self.new.job ≡ self.old.job }
        ensures ok { IfOk result (λ n. TakesFront self.old.job self.old.reader self.new.reader self.old.printer self.new.printer bytes.now page.old page.new n) }
        ensures err { IfErr result (λ e. Halts self.old.job.kind self.old.job.command (seen_bits self.old.reader.progress) self.old.printer bytes.now page.old page.new e × Says self.old.job.command self.old.printer self.new.printer page.old page.new) }
    {
        if self.printer.count() == MOST_ITEMS {
            return Err(RunFault::Endless);
        }
        match take_seen(self.job, &self.reader, &mut self.printer, bytes, page) {
            Ok(Some(count)) => Ok(count),
            Ok(None) => self.take_unseen(bytes, page),
            Err(fault) => Err(fault),
        }
    }

    /// As [`ByteItems::take_front`], where no item is seen.
    #[inline(never)]
    fn take_unseen(&mut self, bytes: &[u8], page: &mut Page) -> Result<usize, RunFault>
        requires some { 0 < length bytes.now }
        requires waits { Awaits self.old.job.kind self.old.reader }
        requires few { self.old.printer.count < 1000000 }
        ensures job { self.new.job ≡ self.old.job }
        ensures ok { IfOk result (λ n. TakesFront self.old.job self.old.reader self.new.reader self.old.printer self.new.printer bytes.now page.old page.new n) }
        ensures err { IfErr result (λ e. Halts self.old.job.kind self.old.job.command (seen_bits self.old.reader.progress) self.old.printer bytes.now page.old page.new e × Says self.old.job.command self.old.printer self.new.printer page.old page.new) }
    {
        match self.refused_at(bytes) {
            Some((bit, var)) => Err(self.refused(bit, var)),
            None => self.feed_reader(bytes, page),
        }
    }

    /// Where the next item is refused, found without a value of it, if the reader has begun none. It may always return
    /// `None`, as it does of a group: each telegram of one is read, so none is read twice.
    fn refused_at(&self, bytes: &[u8]) -> Option<(usize, Var)>
        requires { Awaits self.now.job.kind self.now.reader }
        ensures { IfSome result (λ t. Refuses (readings_of (EntryReads self.now.job.kind)) (seen_bits self.now.reader.progress ++ bits bytes.now) t.0 t.1) }
    {
        if self.job.command == Command::Group || self.reader.bits_seen() > 0 {
            return None;
        }
        refused_at(self.job.kind, bytes)
    }

    /// The next item is refused at this bit.
    fn refused(&self, bit: usize, var: Var) -> RunFault
        requires { self.now.printer.count < 1000000 }
        ensures { result ≡ RunFault.Refused (self.now.printer.count + 1) bit var }
    {
        RunFault::Refused {
            item: self.printer.count() + 1,
            bit,
            var,
        }
    }

    /// Gives bytes to the reader up to the end of an item, which it reports, or all of them, and returns how many.
    fn feed_reader(&mut self, bytes: &[u8], page: &mut Page) -> Result<usize, RunFault>
        requires some { 0 < length bytes.now }
        requires waits { Awaits self.old.job.kind self.old.reader }
        requires few { self.old.printer.count < 1000000 }
        ensures job { self.new.job ≡ self.old.job }
        ensures ok { IfOk result (λ n. TakesFront self.old.job self.old.reader self.new.reader self.old.printer self.new.printer bytes.now page.old page.new n) }
        ensures err { IfErr result (λ e. Halts self.old.job.kind self.old.job.command (seen_bits self.old.reader.progress) self.old.printer bytes.now page.old page.new e × Says self.old.job.command self.old.printer self.new.printer page.old page.new) }
    {
        match self.reader.feed(bytes) {
            Ok(Fed::More) => Ok(bytes.len()),
            Ok(Fed::Done { taken }) => {
                self.print(page)?;
                Ok(taken)
            }
            Err(ReadFault::Refused { bit, var }) => Err(self.refused(bit, var)),
            Err(ReadFault::Memory) => Err(RunFault::Memory),
            Err(ReadFault::Ended) => unreachable!(),
        }
    }

    /// Appends the text of the whole item, and begins the next.
    fn print(&mut self, page: &mut Page) -> Result<(), RunFault>
        requires kind { self.old.reader.kind ≡ self.old.job.kind }
        requires whole { (e : EntryValue) × (self.old.reader.progress ≡ finished e) × (entry_kind e ≡ self.old.job.kind) }
        requires reported { self.old.printer.count < 1000000 }
        ensures job { self.new.job ≡ self.old.job }
        ensures next { OnOk result (self.new.reader ≡ record { kind = self.old.job.kind; progress = reading [] }) }
        ensures reported { self.new.printer.count ≡ self.old.printer.count + 1 }
        ensures ok { (e : EntryValue) → self.old.reader.progress ≡ finished e → OnOk result ((added : List ℕ) × OutputsItem self.old.job.command e self.old.printer added self.new.printer × (page.new ≡ page.old ++ added)) }
        ensures err { IfErr result (λ e. (e ≡ RunFault.Memory) × (page.new ≡ page.old)) }
    {
        let entry = match self.reader.next() {
            Ok(entry) => entry,
            Err(()) => unreachable!(),
        };
        let command = self.job.command;
        if command == Command::Group {
            return match self.printer.print_grouped(entry, page) {
                Ok(()) => Ok(()),
                Err(AllocError) => Err(RunFault::Memory),
            };
        }
        let printed = self.printer.print_alone(command, &entry, page);
        drop(entry);
        match printed {
            Ok(()) => Ok(()),
            Err(AllocError) => Err(RunFault::Memory),
        }
    }
}
