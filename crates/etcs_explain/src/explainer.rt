//! Parts of an input explained, one after another.

ghost use Rattle.std.specs.Prelude.{◌≡◌, ◌+◌, ◌<◌, ◌≤◌, ◌++◌, ◌∷◌, ◌⊎◌, ◌↔◌, ℕ, Bool, List, [], true, false, Some, None, Err, length, string_bytes, drop, take, IfOk, IsTrue, OnErr, OnOk};
ghost use Rattle.etcs_bits.specs.Bits.{bits};
ghost use Rattle.etcs_vars.specs.Reading.{readings_of};
ghost use Rattle.etcs_text.specs.Entries.{EntryReads};
ghost use Rattle.etcs_runs.specs.Passes.{counted};
ghost use Rattle.etcs_runs.specs.declared.fault.RunFault.{RunFault};
ghost use Rattle.etcs_runs.specs.declared.form.Form.TheVariants as form;
ghost use Rattle.etcs_text.specs.declared.account.End.{End};
ghost use Rattle.etcs_text.specs.declared.account.Part.{Part};
ghost use Rattle.etcs_text.specs.Accounts.{Accounts};
ghost use Rattle.etcs_explain.specs.Inputs.{Token, of_line, placed};
ghost use Rattle.etcs_runs.specs.Answers.{Says};
ghost use Rattle.etcs_runs.specs.Digits.{line_digits};
ghost use Rattle.etcs_explain.specs.Kinds.{kind_of};
ghost use Rattle.etcs_explain.specs.Cuts.{AreFew, awaited};
ghost use Rattle.etcs_explain.specs.Parts.{IsUncut, bad_place, edge, first_digits, long_fault, missing, opening, place};
ghost use Rattle.etcs_explain.specs.Stands.{AddsLine, AddsOne, AreReady, Explains, ExplainsSome, IsAfter, ItemPart, Writes};

use crate::hints::last_telegram;
use crate::json::write_no_item;
use crate::kinds::{kind_of, kind_of_json};
use crate::seen::Seen;
use crate::task::Task;
use crate::titles::{awaited, write_heading, write_title};
use etcs_json::{JsonFault, from_line};
use etcs_packet_text::inner::Page;
use etcs_reasons::inner::{
    FOOT, HEAD, MOST_BYTES, Sheet, way_of, write_bytes, write_cause, write_no_bytes, write_table,
};
use etcs_reasons::{Account, End, Layout, Part};
use etcs_runs::inner::is_digit;
use etcs_runs::{Form, MOST_LINE, NoBytes, RunFault};
use etcs_text::{Entry, Kind, encoded};
use std::alloc::{AllocError, Global};

/// Explains parts of an input.
#[derive(Drop)]
pub(crate) struct Explainer {
    pub(crate) alloc: Global,
    pub(crate) task: Task,
    pub(crate) seen: Seen,
    sheet: Sheet,
}

/// What a page has before the title of an item, or of a line that is not an item.
fn opening(layout: Layout, is_item: bool) -> &'static str
    ensures { result.now ≡ opening layout is_item }
{
    match (layout, is_item) {
        (Layout::Text, _) => "",
        (Layout::Html, true) => "<details class=item><summary><h2>",
        (Layout::Html, false) => "<p class=no>",
    }
}

/// Where a part is: the number of the item, or that of the line.
#[tactic(auto, using(std::proofs::Common::append_assoc))]
fn place(alloc: Global, from: Form, number: u64, line: u64) -> Result<String, AllocError>
    ensures { IfOk result (λ s. string_bytes s ≡ place from number line) }
{
    match from {
        Form::Bin => format!(in alloc; "item {number}: "),
        Form::Hex | Form::Json => format!(in alloc; "line {line}: "),
    }
}

/// These texts one after another.
fn joined(
    alloc: Global,
    head: &str,
    opening: &str,
    place: &str,
    rest: &str,
) -> Result<String, AllocError>
    ensures { IfOk result (λ s. string_bytes s ≡ head.now ++ opening.now ++ place.now ++ rest.now) }
{
    let mut all = String::new(alloc);
    all.push_str(head)?;
    all.push_str(opening)?;
    all.push_str(place)?;
    all.push_str(rest)?;
    Ok(all)
}

/// How many bytes the item of this number has that the bytes begin with; or all of them, and what is wrong with them.
fn item_part(kind: Kind, bytes: &[u8], account: &Account, item: u64) -> (usize, Option<RunFault>)
    requires account { Accounts (readings_of (EntryReads kind)) account.now.fields.items account.now.end (take 8184 (bits bytes.now)) }
    ensures part { ItemPart kind item bytes.now result.0 result.1 }
    ensures uncut { ((part : Part) → account.now.end ≡ End.Open part → ⊥) → IsUncut result.1 }
{
    let count = bytes.len();
    match account.end {
        End::Whole => (account.bytes(), None),
        End::Open(_) => {
            let bits = (8 * count.min(MOST_BYTES)) as u64;
            (count, Some(RunFault::Truncated { item, bits }))
        }
        End::Refused(bit, Part { var, .. }) => (count, Some(RunFault::Refused { item, bit, var })),
    }
}

impl Explainer {
    /// Nothing has come yet.
    pub(crate) fn new(alloc: Global, task: Task) -> Explainer
        ensures task { result.task ≡ task }
        ensures begun { result.seen.is_begun ≡ false }
        ensures items { result.seen.items ≡ 0 }
        ensures first { result.seen.first ≡ None }
    {
        Explainer {
            alloc,
            task,
            seen: Seen {
                is_begun: false,
                items: 0,
                first: None,
            },
            sheet: Sheet::new(alloc, task.layout),
        }
    }

    /// The head of the page, if nothing was written before.
    fn head(&self) -> &'static str
        ensures { result.now ≡ missing self.now.seen.is_begun (edge self.now.task.layout HEAD.now) }
    {
        match self.task.layout {
            Layout::Html if !self.seen.is_begun => HEAD,
            _ => "",
        }
    }

    /// The number of the next item.
    fn number(&self) -> u64
        ensures { result ≡ counted (self.now.seen.items + 1) }
    {
        self.seen.items.saturating_add(1)
    }

    /// Empties the sheet.
    fn clear(&mut self)
        ensures task { self.new.task ≡ self.old.task }
        ensures seen { self.new.seen ≡ self.old.seen }
    {
        self.sheet.clear();
        self.sheet.out.clear();
    }

    /// Appends the text of a part: its place, and what the sheet has.
    ///
    /// # Errors
    ///
    /// If memory runs out. Nothing was appended.
    fn pass_on(&self, is_item: bool, line: u64, page: &mut Page) -> Result<(), AllocError>
        ensures ok { OnOk result (Writes HEAD.now self.now.task self.now.seen.is_begun is_item (counted (self.now.seen.items + 1)) line page.old page.new) }
        ensures err { OnErr result (page.new ≡ page.old) }
    {
        let opening = opening(self.task.layout, is_item);
        let rest = self.sheet.whole()?;
        let (head, number) = (self.head(), self.number());
        let place = place(self.alloc, self.task.from, number, line)?;
        let part = joined(self.alloc, head, opening, place.as_str(), rest)?;
        page.put(part.as_bytes())
    }

    /// Appends the title, the table and the reason of an item.
    ///
    /// # Errors
    ///
    /// If memory runs out. Nothing was appended.
    fn write_item(
        &mut self,
        kind: Kind,
        bytes: &[u8],
        account: &Account,
        line: u64,
        page: &mut Page,
    ) -> Result<(), AllocError>
        ensures task { self.new.task ≡ self.old.task }
        ensures seen { self.new.seen ≡ self.old.seen }
        ensures ok { OnOk result (Writes HEAD.now self.old.task self.old.seen.is_begun true (counted (self.old.seen.items + 1)) line page.old page.new) }
        ensures err { OnErr result (page.new ≡ page.old) }
    {
        self.clear();
        let layout = self.task.layout;
        match layout {
            Layout::Text => write_title(kind, bytes, account.end, &mut self.sheet.meaning),
            Layout::Html => write_heading(kind, bytes, account, &mut self.sheet.meaning),
        }
        self.sheet.open_item();
        if layout == Layout::Html {
            write_bytes(bytes, account.end, &mut self.sheet.out);
        }
        write_table(way_of(kind), bytes, account, &mut self.sheet);
        self.sheet.clear();
        let usual = write_cause(kind, bytes, account, &mut self.sheet.meaning)?;
        let often = last_telegram(self.alloc, self.task.from, kind, bytes, account.end)?.or(usual);
        self.sheet.close_item(often);
        self.pass_on(true, line, page)
    }

    /// Appends the line of what is not an item, whose reason is on the sheet, and notes its fault and how many items it counts
    /// as.
    ///
    /// # Errors
    ///
    /// If memory runs out. Nothing was appended.
    fn write_wrong(
        &mut self,
        fault: RunFault,
        items: u64,
        line: u64,
        page: &mut Page,
    ) -> Result<(), AllocError>
        ensures task { self.new.task ≡ self.old.task }
        ensures seen { OnOk result (IsAfter self.old.seen items (Some fault) self.new.seen) }
        ensures ok { OnOk result (Writes HEAD.now self.old.task self.old.seen.is_begun false (counted (self.old.seen.items + 1)) line page.old page.new) }
        ensures err { OnErr result (page.new ≡ page.old) }
    {
        self.sheet.heading();
        self.pass_on(false, line, page)?;
        self.seen = self.seen.after(items, Some(fault));
        Ok(())
    }

    /// Explains the item that the bytes begin with, each with its line, and returns how many bytes it has: all of them if they
    /// don't begin with an item.
    ///
    /// # Errors
    ///
    /// If memory runs out. Nothing was appended.
    fn item(
        &mut self,
        kind: Kind,
        bytes: &[u8],
        lines: &[u64],
        account: &Account,
        page: &mut Page,
    ) -> Result<usize, AllocError>
        requires some { 0 < length bytes.now }
        requires even { length lines.now ≡ length bytes.now }
        requires kind { kind ≡ kind_of self.old.task.kind bytes.now }
        requires account { Accounts (readings_of (EntryReads kind)) account.now.fields.items account.now.end (take 8184 (bits bytes.now)) }
        ensures task { self.new.task ≡ self.old.task }
        ensures some { IfOk result (λ n. 0 < n) }
        ensures most { IfOk result (λ n. n ≤ length bytes.now) }
        ensures ok { IfOk result (λ n. (last : Bool) (next : List Token) → AreReady last self.old.task lines.now bytes.now next → (last ≡ false → awaited kind bytes.now ≤ length bytes.now) → AddsOne HEAD.now self.old.task self.old.seen self.new.seen (placed (take n lines.now) (take n bytes.now)) (placed (drop n lines.now) (drop n bytes.now) ++ next) [] page.old page.new × AreReady last self.old.task (drop n lines.now) (drop n bytes.now) next) }
        ensures uncut { ((part : Part) → account.now.end ≡ End.Open part → ⊥) → IsUncut self.old.seen.first → OnOk result (IsUncut self.new.seen.first) }
        ensures kept { (fault : RunFault) → self.old.seen.first ≡ Some fault → OnOk result (self.new.seen.first ≡ Some fault) }
        ensures err { OnErr result (page.new ≡ page.old) }
    {
        let (count, fault) = item_part(kind, bytes, account, self.number());
        let shown = &bytes[..count.min(MOST_BYTES)];
        self.write_item(kind, shown, account, lines[0], page)?;
        self.seen = self.seen.after(1, fault);
        Ok(count)
    }

    /// How many bytes have to be there before an item of this kind is explained: as many as it has. In an input of bytes a
    /// guess needs more, so nothing depends on how reads were cut.
    fn needed(&self, kind: Kind, bytes: &[u8]) -> usize
        ensures most { result ≤ 1023 }
        ensures least { awaited kind bytes.now ≤ result }
        ensures hex { self.now.task.from ≡ form.Hex → result ≡ awaited kind bytes.now }
    {
        let count = awaited(kind, bytes);
        match (self.task.kind, kind) {
            (None, Kind::Short | Kind::Long) if self.task.from == Form::Bin => count.max(105),
            _ => count,
        }
    }

    /// Explains the items that bytes begin with, one after another, and returns how many bytes they have: all of them if no
    /// more come; else all but fewer than 1,023.
    ///
    /// # Errors
    ///
    /// If memory runs out. The text of the items before was appended.
    pub(crate) fn items(
        &mut self,
        bytes: &[u8],
        lines: &[u64],
        is_last: bool,
        page: &mut Page,
    ) -> Result<usize, AllocError>
        requires even { length lines.now ≡ length bytes.now }
        ensures task { self.new.task ≡ self.old.task }
        ensures most { IfOk result (λ n. n ≤ length bytes.now) }
        ensures short { IfOk result (λ n. length bytes.now < n + 1023) }
        ensures last { IsTrue is_last → IfOk result (λ n. n ≡ length bytes.now) }
        ensures uncut { is_last ≡ false → IsUncut self.old.seen.first → OnOk result (IsUncut self.new.seen.first) }
        ensures kept { (fault : RunFault) → self.old.seen.first ≡ Some fault → OnOk result (self.new.seen.first ≡ Some fault) }
        ensures held { is_last ≡ false → self.old.task.from ≡ form.Hex → IfOk result (λ n. AreFew self.old.task.kind (drop n bytes.now)) }
        ensures ok { IfOk result (λ n. (next : List Token) → AreReady is_last self.old.task lines.now bytes.now next → Explains HEAD.now self.old.task self.old.seen page.old (placed (take n lines.now) (take n bytes.now)) (placed (drop n lines.now) (drop n bytes.now) ++ next) self.new.seen page.new × AreReady is_last self.old.task (drop n lines.now) (drop n bytes.now) next) }
        ensures err { OnErr result ((next : List Token) → AreReady is_last self.old.task lines.now bytes.now next → ExplainsSome HEAD.now self.old.task self.old.seen page.old (placed lines.now bytes.now) next page.new) }
    {
        let mut at = 0;
        while at < bytes.len() {
            let rest = &bytes[at..];
            let kind = kind_of(self.task.kind, rest);
            if !is_last && rest.len() < self.needed(kind, rest) {
                break;
            }
            let account = Account::read(self.alloc, kind, rest)?;
            if !is_last && waits(self.task.from, &account, rest.len()) {
                break;
            }
            at += self.item(kind, rest, &lines[at..], &account, page)?;
        }
        Ok(at)
    }

    /// Explains the item of a line of JSON, or reports why it isn't one.
    ///
    /// # Errors
    ///
    /// If memory runs out. Nothing was appended.
    pub(crate) fn json_line(
        &mut self,
        line: &[u8],
        number: u64,
        page: &mut Page,
    ) -> Result<(), AllocError>
        requires json { self.old.task.from ≡ form.Json }
        ensures task { self.new.task ≡ self.old.task }
        ensures ok { OnOk result (AddsLine HEAD.now self.old.task self.old.seen self.new.seen (of_line number line.now ∷ []) [] page.old page.new) }
        ensures err { OnErr result (page.new ≡ page.old) }
    {
        let kind = kind_of_json(self.task.kind, line);
        let fault = match from_line(self.alloc, kind, line) {
            Ok(entry) => return self.json_item(kind, &entry, number, page),
            Err(fault) => fault,
        };
        self.clear();
        let is_guessed = self.task.kind.is_none();
        write_no_item(kind, is_guessed, line, fault, &mut self.sheet.meaning);
        match fault {
            JsonFault::Refused { bit, var } => {
                let item = self.number();
                self.write_wrong(RunFault::Refused { item, bit, var }, 1, number, page)
            }
            JsonFault::Shape => {
                self.write_wrong(RunFault::BadJson { line: number }, 0, number, page)
            }
            JsonFault::Memory => Err(AllocError),
        }
    }

    /// Explains the item of the line of this number.
    ///
    /// # Errors
    ///
    /// If memory runs out. Nothing was appended.
    fn json_item(
        &mut self,
        kind: Kind,
        entry: &Entry,
        number: u64,
        page: &mut Page,
    ) -> Result<(), AllocError>
        ensures task { self.new.task ≡ self.old.task }
        ensures seen { OnOk result (IsAfter self.old.seen 1 None self.new.seen) }
        ensures ok { OnOk result (Writes HEAD.now self.old.task self.old.seen.is_begun true (counted (self.old.seen.items + 1)) number page.old page.new) }
        ensures err { OnErr result (page.new ≡ page.old) }
    {
        let mut bytes = Vec::new(self.alloc);
        encoded(entry, &mut bytes)?;
        let account = Account::read(self.alloc, kind, bytes.as_slice())?;
        self.write_item(kind, bytes.as_slice(), &account, number, page)?;
        self.seen = self.seen.after(1, None);
        Ok(())
    }

    /// Reports why a line of hexadecimal has no bytes.
    ///
    /// # Errors
    ///
    /// If memory runs out. Nothing was appended.
    pub(crate) fn bad_hex(
        &mut self,
        line: &[u8],
        number: u64,
        why: NoBytes,
        page: &mut Page,
    ) -> Result<(), AllocError>
        requires lines { self.old.task.from ≡ form.Json → ⊥ }
        requires why { Says (line_digits line.now) (Err why) [] }
        ensures task { self.new.task ≡ self.old.task }
        ensures ok { OnOk result (AddsLine HEAD.now self.old.task self.old.seen self.new.seen (of_line number line.now ∷ []) [] page.old page.new) }
        ensures err { OnErr result (page.new ≡ page.old) }
    {
        self.clear();
        let mut reason = String::new(self.alloc);
        write_no_bytes(why, &mut reason)?;
        self.sheet.meaning.push(reason.as_str());
        let fault = RunFault::BadHex {
            line: number,
            place: bad_place(line, why) as u64,
        };
        self.write_wrong(fault, 0, number, page)
    }

    /// Reports that a line is too long.
    ///
    /// # Errors
    ///
    /// If memory runs out. Nothing was appended.
    pub(crate) fn long_line(&mut self, number: u64, page: &mut Page) -> Result<(), AllocError>
        ensures task { self.new.task ≡ self.old.task }
        ensures ok { OnOk result (AddsLine HEAD.now self.old.task self.old.seen self.new.seen [] (number ∷ []) page.old page.new) }
        ensures err { OnErr result (page.new ≡ page.old) }
    {
        self.clear();
        self.sheet.meaning.push("line longer than 1,048,576 bytes");
        self.write_wrong(long_fault(self.task.from, number), 0, number, page)
    }

    /// Appends what a page has at its end: the foot, and before it the head if nothing was written before.
    ///
    /// # Errors
    ///
    /// If memory runs out. Nothing was appended.
    pub(crate) fn end(&self, page: &mut Page) -> Result<(), AllocError>
        ensures ok { OnOk result (page.new ≡ page.old ++ (missing self.now.seen.is_begun (edge self.now.task.layout HEAD.now) ++ edge self.now.task.layout FOOT.now)) }
        ensures err { OnErr result (page.new ≡ page.old) }
    {
        if self.task.layout == Layout::Text {
            return Ok(());
        }
        let head = self.head();
        let edges = format!(in self.alloc; "{head}{FOOT}")?;
        page.put(edges.as_bytes())
    }
}

/// The place of what is wrong with a line without bytes.
fn bad_place(line: &[u8], why: NoBytes) -> usize
    requires { Says (line_digits line.now) (Err why) [] }
    ensures { result ≡ bad_place (line_digits line.now) line.now }
{
    match why {
        NoBytes::NoDigits => first_digits(line),
        _ => line.len(),
    }
}

/// How many digits a line begins with.
fn first_digits(line: &[u8]) -> usize
    ensures { result ≡ first_digits line.now }
{
    let mut count = 0;
    while count < line.len() && is_digit(line[count]) {
        count += 1;
    }
    count
}

/// The fault of a line of this number that is too long.
fn long_fault(from: Form, line: u64) -> RunFault
    ensures { result ≡ long_fault from line }
{
    let place = MOST_LINE as u64;
    match from {
        Form::Json => RunFault::BadJson { line },
        Form::Hex | Form::Bin => RunFault::BadHex { line, place },
    }
}

/// Whether to wait for more bytes before an item is explained: if the bytes end inside it, or, in an input of bytes, if it is
/// refused and there are fewer bytes than are shown. So nothing depends on how reads were cut.
fn waits(from: Form, account: &Account, count: usize) -> bool
    ensures waits { IsTrue result → ((part : Part) × (account.now.end ≡ End.Open part)) ⊎ (count < 1023) }
    ensures whole { account.now.end ≡ End.Whole → result ≡ false }
    ensures refused { (bit : ℕ) (part : Part) → account.now.end ≡ End.Refused bit part → IsTrue result ↔ ((from ≡ form.Bin) × (count < 1023)) }
    ensures other { result ≡ false → (part : Part) → account.now.end ≡ End.Open part → ⊥ }
    ensures hex { from ≡ form.Hex → IsTrue result → (part : Part) × (account.now.end ≡ End.Open part) }
{
    match account.end {
        End::Whole => false,
        // doesn't come, since the bytes of the item are there
        End::Open(_) => true,
        End::Refused(_, _) => from == Form::Bin && count < MOST_BYTES,
    }
}
