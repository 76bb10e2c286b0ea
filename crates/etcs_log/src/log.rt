//! A log: lines one after another, each read by itself.

ghost use Rattle.std.specs.Prelude.{◌≡◌, ◌+◌, ◌<◌, ◌≤◌, ◌^◌, ◌++◌, ◌∷◌, ℕ, List, [], IfErr, IfOk, OnErr, OnOk, length, ⊤};
ghost use Rattle.etcs_log.specs.Logs.{Answered, EndText, lines_in};
ghost use Rattle.etcs_log.specs.Promised.{log_promises};
ghost use Rattle.etcs_runs.specs.declared.fault.RunFault.{RunFault};
ghost use Rattle.etcs_log.specs.Stands.{LogTook};
ghost use Rattle.etcs_log.specs.laws.LogLaws.{log_sound, long_output, stands_output, took_output};

use crate::job::{LogJob, LogTally};
use crate::lines::Answers;
use crate::notes::Note;
use etcs_packet_text::inner::Page;
use etcs_runs::inner::{Engine, LineHandler, Lines, send};
use etcs_runs::{MOST_LINE, RunFault, Sink, without_cr};
use std::alloc::{AllocError, Global};

/// After how many failures the sink of notes isn't called again.
const MOST_FAILURES: u64 = 1 << 62;

/// Lengthens a buffer to at least this many bytes.
///
/// # Errors
///
/// If memory runs out.
fn make_room(buffer: &mut Vec<u8>, count: usize) -> Result<(), AllocError>
    ensures { OnOk result (count ≤ length buffer.new.items) }
{
    if buffer.len() < count {
        buffer.resize(count, 0)?;
    }
    Ok(())
}

/// Handles the lines of a log, with a buffer for the bytes of each and one for what is written of it.
#[derive(Drop)]
pub(crate) struct LogLines {
    buffer: Vec<u8>,
    text: Vec<u8>,
    /// How many bytes the notes of whole lines have.
    noted: usize,
    pub(crate) answers: Answers,
}

impl LogLines {
    /// No line was read. Not inlined, so that what it is made of isn't on the stack while lines are read.
    #[inline(never)]
    pub(crate) fn new(alloc: Global, job: LogJob) -> LogLines
        ensures job { result.answers.job ≡ job }
        ensures took { LogTook job result.answers.line result.answers.seen [] [] }
    {
        LogLines {
            buffer: Vec::new(alloc),
            text: Vec::new(alloc),
            noted: 0,
            answers: Answers::new(alloc, job),
        }
    }

    /// Appends what was written of a line, or nothing.
    fn pass_on(&mut self, page: &mut Page) -> Result<(), AllocError>
        ensures answers { self.new.answers ≡ self.old.answers }
        ensures ok { OnOk result (page.new ≡ page.old ++ self.old.text.items) }
        ensures err { OnErr result (page.new ≡ page.old) }
    {
        self.noted = self.answers.notes.len();
        page.put(self.text.as_slice())
    }

    /// Writes what the next line is.
    ///
    /// # Errors
    ///
    /// If memory runs out.
    fn write_line(&mut self, line: &[u8]) -> Result<(), AllocError>
        requires line { self.old.answers.line < 2 ^ 63 }
        requires few { lines_in self.old.answers.seen.tally < 2 ^ 63 }
        ensures job { self.new.answers.job ≡ self.old.answers.job }
        ensures line { self.new.answers.line ≡ self.old.answers.line + 1 }
        ensures ok { OnOk result (Answered self.old.answers.job (self.old.answers.line + 1) line.now self.old.answers.seen self.new.answers.seen [] self.new.text.items) }
    {
        self.text.clear();
        self.answers.line += 1;
        if line.len() > MOST_LINE {
            return self.answers.refuse(&Note::TooLong, &mut self.text);
        }
        make_room(&mut self.buffer, line.len().div_ceil(2))?;
        self.answers
            .take(line, self.buffer.as_mut_slice(), &mut self.text)
    }

    /// Reports what the next line is.
    ///
    /// # Errors
    ///
    /// If memory runs out. Nothing was appended.
    fn take(&mut self, line: &[u8], page: &mut Page) -> Result<(), AllocError>
        requires line { self.old.answers.line < 2 ^ 63 }
        requires few { lines_in self.old.answers.seen.tally < 2 ^ 63 }
        ensures job { self.new.answers.job ≡ self.old.answers.job }
        ensures line { self.new.answers.line ≡ self.old.answers.line + 1 }
        ensures ok { OnOk result (Answered self.old.answers.job (self.old.answers.line + 1) line.now self.old.answers.seen self.new.answers.seen page.old page.new) }
        ensures err { OnErr result (page.new ≡ page.old) }
    {
        self.write_line(line)?;
        self.pass_on(page)
    }

    /// Ends the log: writes the counts and the groups.
    ///
    /// # Errors
    ///
    /// `Memory` if memory runs out. Nothing was appended.
    fn end(&mut self, page: &mut Page) -> Result<LogTally, RunFault>
        ensures ok { IfOk result (λ tally. (tally ≡ self.old.answers.seen.tally) × ((end : List ℕ) × EndText self.old.answers.job tally self.old.answers.seen.groups end × (page.new ≡ page.old ++ end))) }
        ensures err { IfErr result (λ e. (e ≡ RunFault.Memory) × (page.new ≡ page.old)) }
    {
        self.text.clear();
        self.answers.write_end(&mut self.text)?;
        self.pass_on(page)?;
        Ok(self.answers.seen.tally)
    }
}

impl LineHandler for LogLines {
    type Job = LogJob;

    type Tally = LogTally;

    ghost job = { λ s. s.answers.job };

    ghost promises = { log_promises };

    ghost most = { λ job. 1048576 };

    ghost took = { λ s lines output. LogTook s.answers.job s.answers.line s.answers.seen lines output };

    ghost said = { λ s output. ⊤ };

    fn most(&self) -> usize {
        MOST_LINE
    }

    fn handle_line(&mut self, line: &[u8], _number: u64, page: &mut Page) -> Result<(), RunFault> {
        match self.take(line, page) {
            Ok(()) => Ok(()),
            Err(AllocError) => Err(RunFault::Memory),
        }
    }

    fn refuse_long(&mut self, _number: u64, page: &mut Page) -> Result<(), RunFault> {
        self.text.clear();
        self.answers.line += 1;
        self.answers.refuse(&Note::TooLong, &mut self.text)?;
        Ok(self.pass_on(page)?)
    }

    fn handle_last(
        &mut self,
        line: &[u8],
        _number: u64,
        page: &mut Page,
    ) -> Result<LogTally, RunFault> {
        match self.take(without_cr(line), page) {
            Ok(()) => self.end(page),
            Err(AllocError) => Err(RunFault::Memory),
        }
    }

    fn close(&mut self, page: &mut Page) -> Result<LogTally, RunFault> {
        self.end(page)
    }

    ghost sound = { λ s. log_sound s.answers.job };

    ghost took_outputs = { λ s lines begun output h l. took_output s.answers.job s.answers.line s.answers.seen lines begun output h l };

    ghost long_outputs = { λ s lines part output h l long. long_output s.answers.job s.answers.line s.answers.seen lines part output h l long };

    ghost took_said = { λ s lines output h. tt };
}

/// The lines of a log, and where notes go if good lines are written.
#[derive(Drop)]
pub(crate) struct LogEngine<'a, N: Sink> {
    pub(crate) lines: Lines<LogLines>,
    pub(crate) notes: &'a mut N,
}

/// Passes the first bytes of notes on to a sink. Those that it doesn't take are lost.
fn pass_notes<N: Sink>(notes: &mut Vec<u8>, count: usize, sink: &mut N) {
    notes.truncate(count);
    if sink.failures() < MOST_FAILURES {
        let _ = send(sink, notes.as_slice(), &mut 0);
    }
    notes.clear();
}

impl<'a, N: Sink> Engine for LogEngine<'a, N> {
    type Job = LogJob;

    type Tally = LogTally;

    ghost job = { λ e. e.lines.handler.answers.job };

    ghost promises = { log_promises };

    ghost stands = { λ e given output. ⟦<Lines<LogLines> as Engine>⟧.stands e.lines given output };

    ghost said = { λ e output. ⊤ };

    fn wanted(&self) -> usize {
        self.lines.wanted()
    }

    fn feed(&mut self, piece: &[u8], page: &mut Page) -> Result<(), RunFault> {
        let lines = &mut self.lines;
        let fed = lines.feed(piece, page);
        let LogLines { noted, answers, .. } = &mut lines.handler;
        pass_notes(&mut answers.notes, *noted, self.notes);
        *noted = 0;
        fed
    }

    fn finish(&mut self, page: &mut Page) -> Result<LogTally, RunFault> {
        let lines = &mut self.lines;
        let finished = lines.finish(page);
        let LogLines { noted, answers, .. } = &mut lines.handler;
        pass_notes(&mut answers.notes, *noted, self.notes);
        *noted = 0;
        finished
    }

    ghost sound = { λ e. log_sound e.lines.handler.answers.job };

    ghost stands_outputs = { λ e given output h. stands_output e.lines.handler.answers.job e.lines.handler.answers.line e.lines.handler.answers.seen _ _ _ given output h };
}
