//! The items of bytes and of lines.

ghost use Rattle.std.specs.Prelude.{◌≡◌, ◌+◌, ◌*◌, ◌^◌, ◌<◌, ◌≤◌, ◌∷◌, ◌++◌, ℕ, List, replicate, Err, Ok, [], alloc_error, Some, false, drop, length, map, IfErr, IfOk, IsTrue, OnErr, OnOk};
ghost use Rattle.etcs_runs.specs.declared.fault.RunFault.{RunFault};
ghost use Rattle.etcs_runs.specs.declared.form.Form.TheVariants as form;
ghost use Rattle.etcs_reasons.specs.declared.page.TheConstants.{FOOT, HEAD};
ghost use Rattle.etcs_runs.specs.Digits.{without_mark};

use crate::cut::is_cut;
use crate::explainer::Explainer;
use crate::kinds::say_bits;
use crate::task::Task;
use etcs_packet_text::inner::Page;
use etcs_reasons::inner::{FOOT, HEAD, packed};
use etcs_runs::inner::{Engine, LineHandler, MOST_READ};
use etcs_runs::{Form, MOST_LINE, NoBytes, RunFault, line_bytes, without_cr};
use std::alloc::{AllocError, Global};

/// The bytes of the item that isn't whole yet, the line of each (0 in an input of bytes), how many lines were read, and the
/// explainer.
#[derive(Drop)]
pub(crate) struct Items {
    explainer: Explainer,
    held: Vec<u8>,
    lines: Vec<u64>,
    line: u64,
    ghost even: { length lines.items ≡ length held.items },
}

/// Drops the first ones.
fn drop_first<T: Copy>(list: &mut Vec<T>, count: usize)
    requires { count ≤ length list.old.items }
    ensures { list.new.items ≡ drop count list.old.items }
{
    let len = list.len();
    list.copy_within(count..len, 0);
    list.truncate(len - count);
}

/// The result of a run, with `Memory` if memory ran out.
fn or_memory<T>(done: Result<T, AllocError>) -> Result<T, RunFault>
    ensures ok { IfOk result (λ x. done ≡ Ok x) }
    ensures err { IfErr result (λ e. (e ≡ RunFault.Memory) × (done ≡ Err alloc_error)) }
{
    match done {
        Ok(value) => Ok(value),
        Err(AllocError) => Err(RunFault::Memory),
    }
}

/// A line without the byte order mark in front.
fn without_mark(line: &[u8]) -> &[u8]
    ensures { result.now ≡ without_mark line.now }
{
    if line.len() > 2 && line[0] == 0xEF && line[1] == 0xBB && line[2] == 0xBF {
        &line[3..]
    } else {
        line
    }
}

impl Items {
    ghost use Rattle.etcs_explain.specs.Inputs.{Token, of_byte, of_line, digits_say, hex_tokens, json_tokens, line_long, short_tokens};
    ghost use Rattle.etcs_explain.specs.Parts.{IsUncut};
    ghost use Rattle.etcs_explain.specs.Cuts.{IsCut};
    ghost use Rattle.etcs_runs.specs.Answers.{Says};
    ghost use Rattle.etcs_runs.specs.Digits.{line_digits};
    ghost use Rattle.etcs_explain.specs.Stands.{BytesStand, EndsCut, EndsSome, Finishes, LinesTook, Passes, PassesSome, SomeBefore, Stays, Takes, TakesBefore, TakesSome, next_tokens};

    /// Nothing has come yet.
    pub(crate) fn new(alloc: Global, task: Task) -> Items
        ensures bytes { task.from ≡ form.Bin → BytesStand HEAD.now result [] [] }
        ensures lines { (task.from ≡ form.Bin → ⊥) → LinesTook HEAD.now result [] [] }
        ensures task { result.explainer.task ≡ task }
        ensures line { result.line ≡ 0 }
    {
        Items {
            explainer: Explainer::new(alloc, task),
            held: Vec::new(alloc),
            lines: Vec::new(alloc),
            line: 0,
        }
    }

    /// Holds bytes of the last line.
    fn add(&mut self, bytes: &[u8]) -> Result<(), AllocError>
        ensures same { (self.new.explainer.task ≡ self.old.explainer.task) × (self.new.line ≡ self.old.line) }
        ensures seen { self.new.explainer.seen ≡ self.old.explainer.seen }
        ensures held { OnOk result ((self.new.held.items ≡ self.old.held.items ++ bytes.now) × (self.new.lines.items ≡ self.old.lines.items ++ replicate (length bytes.now) self.old.line)) }
        ensures ok { OnOk result ((text : List ℕ) (next : List Token) → TakesBefore HEAD.now self.old text (map (of_byte self.old.line) bytes.now) next [] self.new text) }
    {
        self.held.extend_from_slice(bytes)?;
        match self.lines.resize(self.held.len(), self.line) {
            Ok(()) => Ok(()),
            Err(refused) => {
                self.held.truncate(self.lines.len());
                Err(refused)
            }
        }
    }

    /// Explains the whole items that are held, or all that is held if no more comes.
    fn pass(&mut self, is_last: bool, page: &mut Page) -> Result<(), AllocError>
        ensures same { (self.new.explainer.task ≡ self.old.explainer.task) × (self.new.line ≡ self.old.line) }
        ensures short { OnOk result (length self.new.held.items < 1023) }
        ensures last { IsTrue is_last → OnOk result (self.new.held.items ≡ []) }
        ensures uncut { is_last ≡ false → IsUncut self.old.explainer.seen.first → OnOk result (IsUncut self.new.explainer.seen.first) }
        ensures kept { (fault : RunFault) → self.old.explainer.seen.first ≡ Some fault → OnOk result (self.new.explainer.seen.first ≡ Some fault) }
        ensures ok { OnOk result (Passes HEAD.now is_last self.old page.old self.new page.new) }
        ensures err { OnErr result (PassesSome HEAD.now is_last self.old page.old self.new page.new) }
    {
        let count = self
            .explainer
            .items(self.held.as_slice(), self.lines.as_slice(), is_last, page)?;
        drop_first(&mut self.held, count);
        drop_first(&mut self.lines, count);
        Ok(())
    }

    /// Explains what is held, if it was cut short before these bytes of the last line.
    fn end_cut(&mut self, bytes: &[u8], page: &mut Page) -> Result<(), AllocError>
        requires some { 0 < length bytes.now }
        ensures same { (self.new.explainer.task ≡ self.old.explainer.task) × (self.new.line ≡ self.old.line) }
        ensures uncut { OnOk result (IsCut self.old.explainer.task.kind self.new.held.items bytes.now → ⊥) }
        ensures ok { OnOk result (EndsCut HEAD.now self.old page.old (map (of_byte self.old.line) bytes.now) self.new page.new) }
        ensures err { OnErr result (EndsSome HEAD.now self.old page.old (map (of_byte self.old.line) bytes.now) self.new page.new) }
    {
        if self.held.is_empty() {
            return Ok(());
        }
        let asked = self.explainer.task.kind;
        if is_cut(self.explainer.alloc, asked, self.held.as_slice(), bytes)? {
            return self.pass(true, page);
        }
        Ok(())
    }

    /// Takes the bytes of the last line, which are the rest of the item that is held or begin another.
    fn take(&mut self, bytes: &[u8], page: &mut Page) -> Result<(), AllocError>
        requires some { 0 < length bytes.now }
        ensures same { (self.new.explainer.task ≡ self.old.explainer.task) × (self.new.line ≡ self.old.line) }
        ensures short { OnOk result (length self.new.held.items < 1023) }
        ensures ok { OnOk result (Takes HEAD.now self.old.line self.old page.old (map (of_byte self.old.line) bytes.now) [] self.new page.new) }
        ensures err { OnErr result (TakesSome HEAD.now self.old.line self.old page.old (map (of_byte self.old.line) bytes.now) [] self.new page.new) }
    {
        self.end_cut(bytes, page)?;
        self.add(bytes)?;
        self.pass(false, page)
    }

    /// Takes the bytes of the last line's digits; or, if the digits are the bits of a telegram, the bytes of these bits.
    fn take_digits(&mut self, bytes: &[u8], page: &mut Page) -> Result<(), AllocError>
        requires some { 0 < length bytes.now }
        ensures same { (self.new.explainer.task ≡ self.old.explainer.task) × (self.new.line ≡ self.old.line) }
        ensures short { OnOk result (length self.new.held.items < 1023) }
        ensures ok { OnOk result (Takes HEAD.now self.old.line self.old page.old (map (of_byte self.old.line) (digits_say self.old.explainer.task.kind bytes.now)) [] self.new page.new) }
        ensures err { OnErr result (TakesSome HEAD.now self.old.line self.old page.old (map (of_byte self.old.line) (digits_say self.old.explainer.task.kind bytes.now)) [] self.new page.new) }
    {
        if say_bits(self.explainer.task.kind, bytes) {
            let packed = packed(bytes);
            return self.take(&packed[..(bytes.len() + 3) / 4], page);
        }
        self.take(bytes, page)
    }

    /// Takes the last line, of hexadecimal.
    fn hex_line(&mut self, line: &[u8], page: &mut Page) -> Result<(), AllocError>
        requires lines { self.old.explainer.task.from ≡ form.Json → ⊥ }
        requires short { length self.old.held.items < 1023 }
        ensures same { (self.new.explainer.task ≡ self.old.explainer.task) × (self.new.line ≡ self.old.line) }
        ensures short { OnOk result (length self.new.held.items < 1023) }
        ensures ok { OnOk result (Takes HEAD.now self.old.line self.old page.old (hex_tokens self.old.explainer.task.kind self.old.line line.now) [] self.new page.new) }
        ensures err { OnErr result (TakesSome HEAD.now self.old.line self.old page.old (hex_tokens self.old.explainer.task.kind self.old.line line.now) [] self.new page.new) }
    {
        let mut buffer = Vec::new(self.explainer.alloc);
        buffer.resize(line.len() / 2 + 1, 0)?;
        self.hex_bytes(line, buffer.as_mut_slice(), page)
    }

    /// Takes the last line, of hexadecimal, whose bytes have room in this buffer.
    fn hex_bytes(
        &mut self,
        line: &[u8],
        buffer: &mut [u8],
        page: &mut Page,
    ) -> Result<(), AllocError>
        requires room { length line.now ≤ 2 * length buffer.old }
        requires lines { self.old.explainer.task.from ≡ form.Json → ⊥ }
        requires short { length self.old.held.items < 1023 }
        ensures same { (self.new.explainer.task ≡ self.old.explainer.task) × (self.new.line ≡ self.old.line) }
        ensures short { OnOk result (length self.new.held.items < 1023) }
        ensures ok { OnOk result (Takes HEAD.now self.old.line self.old page.old (hex_tokens self.old.explainer.task.kind self.old.line line.now) [] self.new page.new) }
        ensures err { OnErr result (TakesSome HEAD.now self.old.line self.old page.old (hex_tokens self.old.explainer.task.kind self.old.line line.now) [] self.new page.new) }
    {
        match line_bytes(line, buffer) {
            Ok(count) => {
                let start = buffer.len() - count;
                self.take_digits(&buffer[start..], page)
            }
            Err(NoBytes::Empty) => Ok(()),
            Err(NoBytes::NoDigits) => self.bad_hex(line, NoBytes::NoDigits, page),
            Err(NoBytes::OddDigits(count)) => {
                self.bad_hex(line, NoBytes::OddDigits(count), page)
            }
        }
    }

    /// Explains what is held, and reports why the last line has no bytes.
    fn bad_hex(&mut self, line: &[u8], why: NoBytes, page: &mut Page) -> Result<(), AllocError>
        requires lines { self.old.explainer.task.from ≡ form.Json → ⊥ }
        requires why { Says (line_digits line.now) (Err why) [] }
        ensures same { (self.new.explainer.task ≡ self.old.explainer.task) × (self.new.line ≡ self.old.line) }
        ensures short { OnOk result (length self.new.held.items < 1023) }
        ensures ok { OnOk result (Takes HEAD.now self.old.line self.old page.old (of_line self.old.line line.now ∷ []) [] self.new page.new) }
        ensures err { OnErr result (TakesSome HEAD.now self.old.line self.old page.old (of_line self.old.line line.now ∷ []) [] self.new page.new) }
    {
        self.pass(true, page)?;
        self.explainer.bad_hex(line, self.line, why, page)?;
        Ok(())
    }

    /// Takes the last line, of JSON.
    fn json_line(&mut self, line: &[u8], page: &mut Page) -> Result<(), AllocError>
        requires form { self.old.explainer.task.from ≡ form.Json }
        requires none { self.old.held.items ≡ [] }
        ensures same { (self.new.explainer.task ≡ self.old.explainer.task) × (self.new.line ≡ self.old.line) }
        ensures none { self.new.held.items ≡ [] }
        ensures ok { OnOk result (Takes HEAD.now self.old.line self.old page.old (json_tokens self.old.line line.now) [] self.new page.new) }
        ensures err { OnErr result (TakesSome HEAD.now self.old.line self.old page.old (json_tokens self.old.line line.now) [] self.new page.new) }
    {
        if line.is_empty() {
            return Ok(());
        }
        self.explainer.json_line(line, self.line, page)?;
        Ok(())
    }

    /// Takes the last line, which isn't too long.
    fn short_line(&mut self, line: &[u8], page: &mut Page) -> Result<(), AllocError>
        requires short { length self.old.held.items < 1023 }
        requires json { self.old.explainer.task.from ≡ form.Json → self.old.held.items ≡ [] }
        ensures same { (self.new.explainer.task ≡ self.old.explainer.task) × (self.new.line ≡ self.old.line) }
        ensures short { OnOk result (length self.new.held.items < 1023) }
        ensures json { self.old.explainer.task.from ≡ form.Json → OnOk result (self.new.held.items ≡ []) }
        ensures ok { OnOk result (Takes HEAD.now self.old.line self.old page.old (short_tokens self.old.explainer.task.kind self.old.explainer.task.from self.old.line line.now) [] self.new page.new) }
        ensures err { OnErr result (TakesSome HEAD.now self.old.line self.old page.old (short_tokens self.old.explainer.task.kind self.old.explainer.task.from self.old.line line.now) [] self.new page.new) }
    {
        match self.explainer.task.from {
            Form::Json => self.json_line(without_mark(line), page),
            Form::Hex => self.hex_line(line, page),
            Form::Bin => self.hex_line(line, page),
        }
    }

    /// Takes the next line.
    fn handle(&mut self, line: &[u8], page: &mut Page) -> Result<(), AllocError>
        requires few { self.old.line < 2 ^ 62 }
        requires short { length self.old.held.items < 1023 }
        requires json { self.old.explainer.task.from ≡ form.Json → self.old.held.items ≡ [] }
        ensures task { self.new.explainer.task ≡ self.old.explainer.task }
        ensures line { self.new.line ≡ self.old.line + 1 }
        ensures short { OnOk result (length self.new.held.items < 1023) }
        ensures json { self.old.explainer.task.from ≡ form.Json → OnOk result (self.new.held.items ≡ []) }
        ensures ok { OnOk result (Takes HEAD.now (self.old.line + 1) self.old page.old (next_tokens self.old line.now) (line_long (self.old.line + 1) line.now) self.new page.new) }
        ensures err { OnErr result (TakesSome HEAD.now (self.old.line + 1) self.old page.old (next_tokens self.old line.now) (line_long (self.old.line + 1) line.now) self.new page.new) }
    {
        self.line += 1;
        if line.len() > MOST_LINE {
            self.explainer.long_line(self.line, page)?;
            return Ok(());
        }
        self.short_line(line, page)
    }

    /// Explains what is held, of which no more comes, writes the foot, and returns what was wrong first.
    fn finish(&mut self, page: &mut Page) -> Result<Option<RunFault>, AllocError>
        ensures task { self.new.explainer.task ≡ self.old.explainer.task }
        ensures kept { (fault : RunFault) → self.old.explainer.seen.first ≡ Some fault → IfOk result (λ first. first ≡ Some fault) }
        ensures ok { IfOk result (λ first. Finishes HEAD.now FOOT.now self.old page.old page.new first) }
        ensures err { OnErr result (Stays self.old [] → SomeBefore HEAD.now self.old page.old [] [] [] self.new page.new) }
    {
        self.pass(true, page)?;
        self.explainer.end(page)?;
        Ok(self.explainer.seen.first)
    }
}

impl Engine for Items {
    ghost use Rattle.std.specs.Prelude.{⊤};
    ghost use Rattle.etcs_reasons.specs.declared.page.TheConstants.{FOOT, HEAD};
    ghost use Rattle.etcs_explain.specs.Explained.{explanations};
    ghost use Rattle.etcs_explain.specs.Stands.{BytesStand};
    ghost use Rattle.etcs_explain.specs.laws.StandLaws.{bytes_output, explanations_sound};

    type Job = Task;

    type Tally = Option<RunFault>;

    ghost job = { λ s. s.explainer.task };

    ghost promises = { λ task. explanations HEAD.now FOOT.now task };

    ghost stands = { BytesStand HEAD.now };

    ghost said = { λ s output. ⊤ };

    fn wanted(&self) -> usize {
        MOST_READ
    }

    fn feed(&mut self, piece: &[u8], page: &mut Page) -> Result<(), RunFault> {
        or_memory(self.add(piece))?;
        or_memory(self.pass(false, page))?;
        match self.explainer.seen.first {
            None => Ok(()),
            Some(fault) => {
                or_memory(self.finish(page))?;
                Err(fault)
            }
        }
    }

    fn finish(&mut self, page: &mut Page) -> Result<Option<RunFault>, RunFault> {
        or_memory(self.finish(page))
    }

    ghost sound = { λ s. explanations_sound HEAD.now FOOT.now s.explainer.task };

    ghost stands_outputs = { λ s given output h. bytes_output HEAD.now s given output h };
}

impl LineHandler for Items {
    ghost use Rattle.std.specs.Prelude.{⊤};
    ghost use Rattle.etcs_reasons.specs.declared.page.TheConstants.{FOOT, HEAD};
    ghost use Rattle.etcs_explain.specs.Explained.{explanations};
    ghost use Rattle.etcs_explain.specs.Stands.{LinesTook};
    ghost use Rattle.etcs_explain.specs.laws.StandLaws.{explanations_sound, lines_output, long_output};

    type Job = Task;

    type Tally = Option<RunFault>;

    ghost job = { λ s. s.explainer.task };

    ghost promises = { λ task. explanations HEAD.now FOOT.now task };

    ghost most = { λ task. 1048576 };

    ghost took = { LinesTook HEAD.now };

    ghost said = { λ s output. ⊤ };

    fn most(&self) -> usize {
        MOST_LINE
    }

    fn handle_line(&mut self, line: &[u8], _number: u64, page: &mut Page) -> Result<(), RunFault> {
        or_memory(self.handle(line, page))
    }

    fn refuse_long(&mut self, _number: u64, page: &mut Page) -> Result<(), RunFault> {
        self.line += 1;
        or_memory(self.explainer.long_line(self.line, page))
    }

    fn handle_last(
        &mut self,
        line: &[u8],
        _number: u64,
        page: &mut Page,
    ) -> Result<Option<RunFault>, RunFault> {
        or_memory(self.handle(without_cr(line), page))?;
        or_memory(self.finish(page))
    }

    fn close(&mut self, page: &mut Page) -> Result<Option<RunFault>, RunFault> {
        or_memory(self.finish(page))
    }

    ghost sound = { λ s. explanations_sound HEAD.now FOOT.now s.explainer.task };

    ghost took_outputs = { λ s lines begun output h l. lines_output HEAD.now s lines begun output h l };

    ghost long_outputs = { λ s lines part output h l m. long_output HEAD.now s lines part output h l m };

    ghost took_said = { λ s lines output h. tt };
}
