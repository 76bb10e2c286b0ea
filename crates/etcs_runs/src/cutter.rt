//! Cuts text into lines.

ghost use Rattle.std.specs.Prelude.{◌≡◌, ◌+◌, ◌-◌, ◌^◌, ◌<◌, ◌≤◌, ◌++◌, ◌∷◌, ℕ, List, [], length, take, IfOk, OnErr};
ghost use Rattle.etcs_runs.specs.Lines.{IsAfterLf, IsLine};
ghost use Rattle.etcs_runs.specs.Handling.{EndsLong, EndsWith, SaysAfter, StopsAtKept, StopsAtLine, StopsAtLong, StopsIn, StopsLong, StopsWith, TakesKept, TakesLine, TakesLines, TakesLong, TookSome, TookWith};

use crate::engine::{Engine, MOST_READ};
use crate::fault::RunFault;
use crate::lines::{after_lines, next_line, without_cr};
use etcs_packet_text::inner::Page;
use std::alloc::{AllocError, Global};

/// Takes the lines of a text one after another, each with its number, and reports the items in them. Each implementation is
/// proved to do what is written here; lines that were taken, and the text written of them, are an engine's bytes and text
/// (`took_outputs`, `long_outputs`), and its `promises` follow from one another as `Sound` lists.
pub trait LineHandler {
    ghost use Rattle.std.specs.Prelude.{◌≡◌, ◌+◌, ◌<◌, ◌^◌, ℕ, List, [], ◌++◌, ◌∷◌, length};
    ghost use Rattle.etcs_runs.specs.Lines.{IsLine, lines_text};
    ghost use Rattle.etcs_runs.specs.Promises.{Promises, Sound};

    /// What it was asked to do, which stays the same.
    type Job;

    /// What it returns at the end of the input.
    type Tally: Copy;

    ghost job: { Self → Self.Job };

    /// What a run of it promises.
    ghost promises: { Self.Job → Promises Self.Tally };

    /// How many characters a line has at most.
    ghost most: { Self.Job → ℕ };

    /// These lines were taken, and this text was written of them.
    ghost took: { Self → List (List ℕ) → List ℕ → Type 0 };

    /// This text was written of the lines, up to a fault.
    ghost said: { Self → List ℕ → Type 0 };

    /// Returns how many characters a line has at most, fewer than 2^62.
    fn most(&self) -> usize
        ensures value { result ≡ most (job self.now) }
        ensures fits { result < 2 ^ 62 };

    /// How many bytes after a line's LF `handle_lines` looks at to take the line: 0 if it takes none.
    fn beyond(&self) -> usize {
        0
    }

    /// Takes lines that come next from the front of a text, as `handle_line` takes each, and appends the text of them. It may
    /// take fewer than there are, or none. Returns how many bytes they have in all, each with its LF, and how many they are.
    /// All of them lie in the first `whole` bytes; what is after these isn't of the input.
    ///
    /// Requires that fewer than 2^62 lines were taken (`took`), and that the first `whole` bytes end with a LF.
    ///
    /// # Errors
    ///
    /// A fault other than `Read` and `Write`: each input that begins with the lines taken and the first `whole` bytes ends
    /// with it after the text written, which is appended, and for which `said` holds.
    #[inline(always)]
    fn handle_lines(
        &mut self,
        rest: &[u8],
        whole: usize,
        page: &mut Page,
    ) -> Result<(usize, u64), RunFault>
        requires took { TookSome (took self.old) }
        requires whole { IsAfterLf rest.now whole }
        ensures job { job self.new ≡ job self.old }
        ensures ok { TakesLines (took self.old) (took self.new) rest.now whole page.old page.new result }
        ensures err { StopsIn (took self.old) (promises (job self.old)) (take whole rest.now) page.old page.new result }
        ensures said { SaysAfter (took self.old) (said self.new) page.old page.new result }
    {
        Ok((0, 0))
    }

    /// Takes the next line, which had a LF and perhaps a CR before it, and appends the text of it. It may be longer
    /// than `most`. If it succeeds, the line was taken after those before.
    ///
    /// Requires that fewer than 2^62 lines were taken (`took`).
    ///
    /// # Errors
    ///
    /// A fault other than `Read` and `Write`: if `number` is that of the line, counted from 1, each input that begins
    /// with the lines taken and this one ends with it after the text written (`Stops`), which is appended, and for
    /// which `said` holds. `Memory` may come at any line.
    fn handle_line(&mut self, line: &[u8], number: u64, page: &mut Page) -> Result<(), RunFault>
        requires took { TookSome (took self.old) }
        ensures job { job self.new ≡ job self.old }
        ensures ok { TakesLine (took self.old) (took self.new) line.now page.old page.new result }
        ensures err { StopsAtLine (took self.old) (promises (job self.old)) line.now number page.old page.new result }
        ensures said { SaysAfter (took self.old) (said self.new) page.old page.new result };

    /// Takes the line of this number, which has more characters than `most` and a CR, and isn't kept. If it succeeds,
    /// the line was taken, however it continues, and the next call is for the line after it, or is `close`.
    ///
    /// Requires that fewer than 2^62 lines were taken (`took`).
    ///
    /// # Errors
    ///
    /// As `handle_line`, of each input whose next line begins like this one and is too long.
    fn refuse_long(&mut self, number: u64, page: &mut Page) -> Result<(), RunFault>
        requires took { TookSome (took self.old) }
        ensures job { job self.new ≡ job self.old }
        ensures ok { TakesLong (took self.old) (took self.new) (most (job self.old)) page.old page.new result }
        ensures err { StopsAtLong (took self.old) (promises (job self.old)) (most (job self.old)) number page.old page.new result }
        ensures said { SaysAfter (took self.old) (said self.new) page.old page.new result };

    /// Takes the last line, of this number, which may be empty and has no LF, and appends what is written at the end. If it
    /// succeeds, the lines taken and this one are a whole input with all the text written and this result (`Ends`).
    ///
    /// Requires that fewer than 2^62 lines were taken (`took`), and an empty text (`empty`).
    ///
    /// # Errors
    ///
    /// A fault other than `Read` and `Write`: the input of these lines ends with it after the text written (`StopsAtEnd`),
    /// which is appended, and for which `said` holds.
    fn handle_last(
        &mut self,
        line: &[u8],
        number: u64,
        page: &mut Page,
    ) -> Result<Self::Tally, RunFault>
        requires took { TookSome (took self.old) }
        requires empty { page.old ≡ [] }
        ensures ok { EndsWith (took self.old) (promises (job self.old)) line.now page.new result }
        ensures err { StopsWith (took self.old) (promises (job self.old)) line.now number page.new result }
        ensures said { (lines : List (List ℕ)) (output : List ℕ) → took self.old lines output → OnErr result (said self.new (output ++ page.new)) };

    /// Ends an input whose last line was too long and was taken by `refuse_long`, and appends what is written at the
    /// end. If it succeeds, the lines taken are a whole input with all the text written and this result (`Ends`).
    ///
    /// Requires that fewer than 2^62 lines were taken (`took`), and an empty text (`empty`).
    ///
    /// # Errors
    ///
    /// A fault other than `Read` and `Write`: the input of these lines ends with it after the text written (`StopsAtEnd`),
    /// which is appended, and for which `said` holds.
    fn close(&mut self, page: &mut Page) -> Result<Self::Tally, RunFault>
        requires took { TookSome (took self.old) }
        requires empty { page.old ≡ [] }
        ensures ok { EndsLong (took self.old) (promises (job self.old)) (most (job self.old)) page.new result }
        ensures err { StopsLong (took self.old) (promises (job self.old)) (most (job self.old)) page.new result }
        ensures said { (lines : List (List ℕ)) (output : List ℕ) → took self.old lines output → OnErr result (said self.new (output ++ page.new)) };

    /// Its promises follow from one another as `Sound` lists.
    ghost sound: { (t : Self) → Sound (promises (job t)) };

    /// What was written of the lines taken is the text of all that is whole in them and in the line begun after them.
    ghost took_outputs: { (t : Self) (lines : List (List ℕ)) (begun output : List ℕ) → took t lines output → IsLine begun → (promises (job t)).Outputs (lines_text lines ++ begun) output };

    /// The last of the lines is too long, and may have no LF yet.
    ghost long_outputs: { (t : Self) (lines : List (List ℕ)) (part output : List ℕ) → took t (lines ++ part ∷ []) output → IsLine part → most (job t) + 1 < length part → (promises (job t)).Outputs (lines_text lines ++ part) output };

    /// What was written of the lines taken may be the text up to a fault.
    ghost took_said: { (t : Self) (lines : List (List ℕ)) (output : List ℕ) → took t lines output → said t output };
}

/// A LF, and bytes after it: as many as `beyond` of any handler.
static AFTER: [u8; 65] = [b'\n'; 65];

/// Gives the line that is kept to a handler, first with its LF and bytes after it. What `kept` has afterwards isn't promised.
///
/// # Errors
///
/// Those of the handler, and `Memory`.
fn give_kept<T: LineHandler>(
    handler: &mut T,
    kept: &mut Vec<u8>,
    number: u64,
    page: &mut Page,
) -> Result<(), RunFault>
    requires took { TookWith (T.took handler.old) page.old }
    requires line { IsLine kept.old.items }
    ensures job { T.job handler.new ≡ T.job handler.old }
    ensures ok { TakesKept (T.took handler.old) (T.took handler.new) kept.old.items page.old page.new result }
    ensures err { StopsAtKept (T.took handler.old) (T.promises (T.job handler.old)) kept.old.items number page.old page.new result }
    ensures said { SaysAfter (T.took handler.old) (T.said handler.new) page.old page.new result }
{
    let count = kept.len();
    kept.extend_from_slice(&AFTER)?;
    let (_, lines) = handler.handle_lines(kept.as_slice(), count + 1, page)?;
    if lines > 0 {
        return Ok(());
    }
    kept.truncate(count);
    handler.handle_line(without_cr(kept.as_slice()), number, page)
}

/// Cuts pieces of an input into lines, for whatever handler takes them: an engine ([`Engine`]) with the handler's
/// promises. It holds the line that isn't whole yet, how many characters it has so far, and how many lines came before
/// it.
#[derive(Drop)]
pub struct Lines<T: LineHandler> {
    begun: Vec<u8>,
    count: usize,
    line: u64,
    pub handler: T,
}

impl<T: LineHandler> Lines<T> {
    ghost use Rattle.etcs_runs.specs.Cutting.{HasRoom, SaysSo, StopsAt, TakesFront, TakesPart};

    /// Returns a cutter that was fed nothing, over a handler that has the same job.
    ///
    /// Requires that the handler took no line and wrote no text.
    pub fn new(alloc: Global, handler: T) -> Lines<T>
        requires { T.took handler [] [] }
        ensures job { T.job result.handler ≡ T.job handler }
        ensures stands { ⟦<Lines<T> as Engine>⟧.stands result [] [] }
    {
        Lines {
            begun: Vec::new(alloc),
            count: 0,
            line: 0,
            handler,
        }
    }

    /// Keeps a part of a line, of which no more is kept than a line and its CR have.
    ///
    /// # Errors
    ///
    /// Those of the handler if the line becomes too long, and `Memory`.
    fn keep(&mut self, part: &[u8], page: &mut Page) -> Result<(), RunFault>
        requires stands { HasRoom T.LineHandler self.old page.old (length part.now) }
        requires line { IsLine part.now }
        ensures job { T.job self.new.handler ≡ T.job self.old.handler }
        ensures line { self.new.line ≡ self.old.line }
        ensures ok { TakesPart T.LineHandler self.old page.old page.new result self.new part.now }
        ensures err { (more : List ℕ) → StopsAt T.LineHandler self.old page.old page.new result (part.now ++ more) }
        ensures said { SaysSo T.LineHandler self.old page.old page.new result self.new }
    {
        let most = self.handler.most() + 1;
        let before = self.count;
        self.count += part.len();
        if self.count > most {
            if before > most {
                return Ok(());
            }
            return self.handler.refuse_long(self.line + 1, page);
        }
        match self.begun.extend_from_slice(part) {
            Ok(()) => Ok(()),
            Err(AllocError) => Err(RunFault::Memory),
        }
    }

    /// Takes lines from the front of a piece, as many as the handler takes by itself, and returns what is after them. It
    /// takes none if a line began before the piece. `after` bytes follow the last LF of the piece.
    ///
    /// # Errors
    ///
    /// Those of the handler.
    #[inline(always)]
    fn take_lines<'p>(
        &mut self,
        piece: &'p [u8],
        after: usize,
        page: &mut Page,
    ) -> Result<&'p [u8], RunFault>
        requires stands { HasRoom T.LineHandler self.old page.old (length piece.now) }
        requires after { after < length piece.now → IsAfterLf piece.now (length piece.now - after) }
        ensures job { T.job self.new.handler ≡ T.job self.old.handler }
        ensures ok { IfOk result (λ beyond. TakesFront T.LineHandler self.old page.old page.new self.new piece.now beyond.now) }
        ensures err { StopsAt T.LineHandler self.old page.old page.new result piece.now }
        ensures said { SaysSo T.LineHandler self.old page.old page.new result self.new }
    {
        if self.count > 0 || piece.len() <= after {
            return Ok(piece);
        }
        let whole = piece.len() - after;
        let (count, lines) = self.handler.handle_lines(piece, whole, page)?;
        self.line += lines;
        Ok(&piece[count..])
    }

    /// Ends a line, of which this is the last part; `after` bytes follow its LF in the piece. A line that is whole in this
    /// part isn't kept if the handler looks at no more bytes than these.
    fn end_line(&mut self, part: &[u8], after: usize, page: &mut Page) -> Result<(), RunFault>
        requires stands { HasRoom T.LineHandler self.old page.old (length part.now) }
        requires line { IsLine part.now }
        ensures job { T.job self.new.handler ≡ T.job self.old.handler }
        ensures ok { TakesPart T.LineHandler self.old page.old page.new result self.new (part.now ++ 10 ∷ []) }
        ensures err { (more : List ℕ) → StopsAt T.LineHandler self.old page.old page.new result (part.now ++ 10 ∷ more) }
        ensures said { SaysSo T.LineHandler self.old page.old page.new result self.new }
    {
        if self.count == 0 && after >= self.handler.beyond() {
            self.line += 1;
            return self.handler.handle_line(without_cr(part), self.line, page);
        }
        self.keep(part, page)?;
        self.line += 1;
        if self.count <= self.handler.most() + 1 {
            give_kept(&mut self.handler, &mut self.begun, self.line, page)?;
        }
        self.count = 0;
        self.begun.clear();
        Ok(())
    }
}

impl<T: LineHandler> Engine for Lines<T> {
    ghost use Rattle.etcs_runs.specs.Cutting.{Stands};
    ghost use Rattle.etcs_runs.specs.laws.CutLaws.{lines_outputs};

    type Job = T::Job;

    type Tally = T::Tally;

    ghost job = { λ s. T.job s.handler };

    ghost promises = { T.promises };

    ghost stands = { Stands T.LineHandler };

    ghost said = { λ s output. T.said s.handler output };

    fn wanted(&self) -> usize {
        MOST_READ
    }

    fn feed(&mut self, piece: &[u8], page: &mut Page) -> Result<(), RunFault> {
        let after = after_lines(piece);
        let mut rest = self.take_lines(piece, after, page)?;
        while let Some((line, beyond)) = next_line(rest, after) {
            self.end_line(line, beyond.len(), page)?;
            rest = self.take_lines(beyond, after, page)?;
        }
        self.keep(rest, page)
    }

    fn finish(&mut self, page: &mut Page) -> Result<T::Tally, RunFault> {
        if self.count > self.handler.most() + 1 {
            return self.handler.close(page);
        }
        self.handler
            .handle_last(self.begun.as_slice(), self.line + 1, page)
    }

    ghost sound = { λ s. T.sound s.handler };

    ghost stands_outputs = { λ s given output h. lines_outputs (T.promises (T.job s.handler)).Outputs (T.took s.handler) (T.most (T.job s.handler)) (T.took_outputs s.handler) (T.long_outputs s.handler) s.begun.items s.count s.line given output h };
}
