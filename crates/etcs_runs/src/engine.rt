//! What is fed an input, and writes text of it.

ghost use Rattle.std.specs.Prelude.{◌≡◌, ◌<◌, ◌≤◌, ◌+◌, ◌^◌, ℕ, List, [], ◌++◌, length, IfOk, OnErr, OnOk};
ghost use Rattle.etcs_runs.specs.Faults.{IfFault};

use crate::fault::RunFault;
use etcs_packet_text::inner::Page;

/// How many bytes a read asks for at most.
pub const MOST_READ: usize = 4096;

/// Writes text of the bytes that it is fed. Each implementation is proved to do what is written here: an engine that
/// was fed some bytes and wrote some text of them is, after a call of `feed` that succeeds, one that was fed the piece
/// too and wrote the text of the call too. What a run over an engine promises are its `promises` (`Promises`), which
/// follow from one another as `Sound` lists; what was written so far is the text of all that is whole in what was fed
/// (`stands_outputs`).
pub trait Engine {
    ghost use Rattle.std.specs.Prelude.{◌≡◌, ◌<◌, ◌≤◌, ◌+◌, ◌^◌, ℕ, List, [], ◌++◌, length};
    ghost use Rattle.etcs_runs.specs.Promises.{Promises, Sound};

    /// What it was asked to do, which stays the same.
    type Job;

    /// What it returns at the end of the input.
    type Tally: Copy;

    ghost job: { Self → Self.Job };

    /// What a run of it promises.
    ghost promises: { Self.Job → Promises Self.Tally };

    /// These bytes were fed, and this text was written of them.
    ghost stands: { Self → List ℕ → List ℕ → Type 0 };

    /// This text was written of what was fed, up to a fault.
    ghost said: { Self → List ℕ → Type 0 };

    /// How many bytes the next read asks for, so that it ends with an item if the items' length is known.
    fn wanted(&self) -> usize
        ensures some { 0 < result }
        ensures most { result ≤ 4096 };

    /// Takes a piece of the input, and appends the text of each item that becomes whole. If it succeeds, the piece was fed
    /// after what was fed before, and the text appended was written after what was written before.
    ///
    /// Requires an empty text (`empty`), and that all that is fed is fewer than 2^62 bytes (`stands`).
    ///
    /// # Errors
    ///
    /// A fault other than `Read` and `Write`: each input that begins with all that was fed, this piece included, ends
    /// with it after the text written (`Stops`), which is appended, and for which `said` holds. `Memory`
    /// may come at any piece.
    fn feed(&mut self, piece: &[u8], page: &mut Page) -> Result<(), RunFault>
        requires stands { (given : List ℕ) × (output : List ℕ) × stands self.old given output × (length given + length piece.now < 2 ^ 62) }
        requires empty { page.old ≡ [] }
        ensures job { job self.new ≡ job self.old }
        ensures ok { (given output : List ℕ) → stands self.old given output → OnOk result (stands self.new (given ++ piece.now) (output ++ page.new)) }
        ensures err { (given output : List ℕ) → stands self.old given output → IfFault result ((promises (job self.old)).Stops (given ++ piece.now) (output ++ page.new)) }
        ensures said { (given output : List ℕ) → stands self.old given output → OnErr result (said self.new (output ++ page.new)) };

    /// Ends the input. If it succeeds, what was fed is a whole input, with all the text written, that appended here
    /// included, and with this result (`Ends`).
    ///
    /// Requires an empty text (`empty`), and that fewer than 2^62 bytes were fed (`stands`).
    ///
    /// # Errors
    ///
    /// A fault other than `Read` and `Write`: the input of the bytes that were fed ends with it after the text written
    /// (`StopsAtEnd`), which is appended, and for which `said` holds.
    fn finish(&mut self, page: &mut Page) -> Result<Self::Tally, RunFault>
        requires stands { (given : List ℕ) × (output : List ℕ) × stands self.old given output × (length given < 2 ^ 62) }
        requires empty { page.old ≡ [] }
        ensures ok { (given output : List ℕ) → stands self.old given output → IfOk result (λ tally. (promises (job self.old)).Ends given (output ++ page.new) tally) }
        ensures err { (given output : List ℕ) → stands self.old given output → IfFault result ((promises (job self.old)).StopsAtEnd given (output ++ page.new)) }
        ensures said { (given output : List ℕ) → stands self.old given output → OnErr result (said self.new (output ++ page.new)) };

    /// Its promises follow from one another as `Sound` lists.
    ghost sound: { (e : Self) → Sound (promises (job e)) };

    /// What was written so far is the text of all that is whole in what was fed.
    ghost stands_outputs: { (e : Self) (given output : List ℕ) → stands e given output → (promises (job e)).Outputs given output };
}
