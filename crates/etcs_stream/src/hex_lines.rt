//! Lines of hexadecimal.

ghost use Rattle.std.specs.Prelude.{◌≡◌, ◌≤◌, ◌⊎◌, ℕ, [], None, Some, IfErr, OnErr, OnOk};
ghost use Rattle.etcs_runs.specs.declared.fault.RunFault.{RunFault};
ghost use Rattle.etcs_runs.specs.declared.form.Form.TheVariants as form;
ghost use Rattle.etcs_stream.specs.Engines.{promises};
ghost use Rattle.etcs_stream.specs.Lines.{bad_place, line_bytes, most_characters};
ghost use Rattle.etcs_text.specs.Readers.{seen_bits};
ghost use Rattle.etcs_stream.specs.Readers.{Awaits, HasRoom};
ghost use Rattle.etcs_stream.specs.laws.Printing.{sound};
ghost use Rattle.etcs_stream.specs.laws.StandLaws.{hex_long, hex_outputs, hex_said};
ghost use Rattle.etcs_stream.specs.Stands.{HexTook};
ghost use Rattle.etcs_stream.specs.Taking.{Advances, Halts, Says};
ghost use Rattle.etcs_stream.specs.Printers.{IsGroupable, nothing_reported};

use crate::byte_items::ByteItems;
use crate::digits::{MOST_CHARACTERS, decode_line};
use crate::job::{Job, Tally};
use etcs_packet_text::inner::Page;
use etcs_runs::RunFault;
use etcs_runs::inner::LineHandler;
use std::alloc::Global;

/// Gives the bytes of lines of hexadecimal to the items.
#[derive(Drop)]
pub(crate) struct HexLines {
    items: ByteItems,
    /// Where a line's bytes are put, before they are used.
    buffer: [u8; 2048],
    ghost form: { items.job.from ≡ form.Hex },
}

impl HexLines {
    /// A handler that took nothing yet.
    pub(crate) fn new(alloc: Global, job: Job) -> HexLines
        requires form { job.from ≡ form.Hex }
        requires groupable { IsGroupable job }
        ensures job { result.items.job ≡ job }
        ensures took { HexTook job result.items.reader result.items.printer [] [] }
    {
        HexLines {
            items: ByteItems::new(alloc, job),
            buffer: [0; 2048],
        }
    }

    /// Gives the bytes of a line to the items. The line is checked before any of it is used.
    fn handle(&mut self, line: &[u8], number: u64, page: &mut Page) -> Result<(), RunFault>
        requires waits { Awaits self.old.items.job.kind self.old.items.reader }
        requires reported { self.old.items.printer.count ≤ 1000000 }
        ensures job { self.new.items.job ≡ self.old.items.job }
        ensures good { OnOk result (bad_place line.now ≡ None) }
        ensures waits { OnOk result (Awaits self.old.items.job.kind self.new.items.reader) }
        ensures reported { OnOk result (self.new.items.printer.count ≤ 1000000) }
        ensures room { HasRoom self.old.items.printer.count (seen_bits self.old.items.reader.progress) → OnOk result (HasRoom self.new.items.printer.count (seen_bits self.new.items.reader.progress)) }
        ensures ok { OnOk result (Advances self.old.items.job.kind self.old.items.job.command (seen_bits self.old.items.reader.progress) (seen_bits self.new.items.reader.progress) self.old.items.printer self.new.items.printer (line_bytes line.now) page.old page.new) }
        ensures err { IfErr result (λ e. ((place : ℕ) × (bad_place line.now ≡ Some place) × (e ≡ RunFault.BadHex number place) × (page.new ≡ page.old)) ⊎ ((bad_place line.now ≡ None) × Halts self.old.items.job.kind self.old.items.job.command (seen_bits self.old.items.reader.progress) self.old.items.printer (line_bytes line.now) page.old page.new e)) }
        ensures said { OnErr result (Says self.old.items.job.command self.old.items.printer self.new.items.printer page.old page.new) }
    {
        if line.is_empty() {
            return Ok(());
        }
        match decode_line(line, &mut self.buffer) {
            Ok(count) => self.items.take_bytes(&self.buffer[..count], page),
            Err(place) => Err(RunFault::BadHex {
                line: number,
                place: place as u64,
            }),
        }
    }
}

impl LineHandler for HexLines {
    type Job = Job;

    type Tally = Tally;

    ghost job = { λ s. s.items.job };

    ghost promises = { promises };

    ghost most = { λ job. most_characters job.from };

    ghost took = { λ s lines output. HexTook s.items.job s.items.reader s.items.printer lines output };

    ghost said = { λ s output. Says s.items.job.command nothing_reported s.items.printer [] output };

    fn most(&self) -> usize {
        MOST_CHARACTERS
    }

    fn handle_line(&mut self, line: &[u8], number: u64, page: &mut Page) -> Result<(), RunFault> {
        self.handle(line, number, page)
    }

    fn refuse_long(&mut self, number: u64, _page: &mut Page) -> Result<(), RunFault> {
        Err(RunFault::BadHex {
            line: number,
            place: MOST_CHARACTERS as u64,
        })
    }

    fn handle_last(
        &mut self,
        line: &[u8],
        number: u64,
        page: &mut Page,
    ) -> Result<Tally, RunFault> {
        self.handle(line, number, page)?;
        self.items.finish(page)
    }

    fn close(&mut self, page: &mut Page) -> Result<Tally, RunFault> {
        self.items.finish(page)
    }

    ghost sound = { λ s. sound s.items.job };

    ghost took_outputs = { λ s lines begun output h l. hex_outputs s.items.job s.items.reader s.items.printer lines begun output h l };

    ghost long_outputs = { λ s lines part output h l long. hex_long s.items.job s.items.reader s.items.printer lines part output h l long };

    ghost took_said = { λ s lines output h. hex_said s.items.job s.items.reader s.items.printer lines output h };
}
