//! The engine of bytes that are the items themselves.

ghost use Rattle.std.specs.Prelude.{◌≡◌, []};
ghost use Rattle.etcs_runs.specs.declared.form.Form.TheVariants as form;
ghost use Rattle.etcs_stream.specs.Stands.{BinStands};
ghost use Rattle.etcs_stream.specs.Taking.{Says};
ghost use Rattle.etcs_stream.specs.Engines.{promises};
ghost use Rattle.etcs_stream.specs.laws.Printing.{sound};
ghost use Rattle.etcs_stream.specs.laws.StandLaws.{bin_outputs};
ghost use Rattle.etcs_stream.specs.Printers.{IsGroupable, nothing_reported};

use crate::byte_items::ByteItems;
use crate::job::{Job, Tally};
use etcs_packet_text::inner::Page;
use etcs_runs::RunFault;
use etcs_runs::inner::Engine;
use std::alloc::Global;

/// Reports the items of bytes.
#[derive(Drop)]
pub(crate) struct Bin {
    items: ByteItems,
}

impl Bin {
    /// An engine that was fed nothing.
    pub(crate) fn new(alloc: Global, job: Job) -> Bin
        requires form { job.from ≡ form.Bin }
        requires groupable { IsGroupable job }
        ensures job { result.items.job ≡ job }
        ensures stands { BinStands job result.items.reader result.items.printer [] [] }
    {
        Bin {
            items: ByteItems::new(alloc, job),
        }
    }
}

impl Engine for Bin {
    type Job = Job;

    type Tally = Tally;

    ghost job = { λ s. s.items.job };

    ghost promises = { promises };

    ghost stands = { λ s given output. BinStands s.items.job s.items.reader s.items.printer given output };

    ghost said = { λ s output. Says s.items.job.command nothing_reported s.items.printer [] output };

    fn wanted(&self) -> usize {
        self.items.wanted()
    }

    fn feed(&mut self, piece: &[u8], page: &mut Page) -> Result<(), RunFault> {
        self.items.take_bytes(piece, page)
    }

    fn finish(&mut self, page: &mut Page) -> Result<Tally, RunFault> {
        self.items.finish(page)
    }

    ghost sound = { λ s. sound s.items.job };

    ghost stands_outputs = { λ s given output h. bin_outputs s.items.job s.items.reader s.items.printer given output h };
}
