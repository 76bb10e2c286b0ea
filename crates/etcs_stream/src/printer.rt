//! What is written of each item, and after the last one.

ghost use Rattle.std.specs.Prelude.{◌≡◌, ◌+◌, ◌*◌, ◌<◌, ◌≤◌, ◌++◌, ◌∷◌, [], Bool, ℕ, List, Ok, Err, IfOk, IfSome, IsNone, IsTrue, OnErr, OnOk, false, length, take, true};
ghost use Rattle.serde_json.specs.Written.{compact_text};
ghost use Rattle.etcs_bits.specs.Bits.{bits};
ghost use Rattle.etcs_vars.specs.Reading.{IsOutcome, done};
ghost use Rattle.etcs_telegram.specs.Telegrams.{IsTelegram};
ghost use Rattle.etcs_group.specs.Groups.{HeldAfter, IsGroup};
ghost use Rattle.etcs_text.specs.Encodings.{IsEncoded, check_line};
ghost use Rattle.etcs_text.specs.Entries.{EntryReads, EntryValue, entry_kind, entry_value};
ghost use Rattle.etcs_text.specs.Trees.{json_tree};
ghost use Rattle.hex.specs.Hex.{encode_upper};
ghost use Rattle.etcs_stream.specs.Groups.{Answers, clashes_with};
ghost use Rattle.etcs_stream.specs.Reported.{Reported};
ghost use Rattle.etcs_text.specs.Kinds.{IsOfTelegrams};
ghost use Rattle.etcs_stream.specs.Printers.{Closes, OutputsItem, nothing_reported, one_more};

use crate::group_lines::{answer_line, last_lines};
use crate::job::{Command, Tally};
use etcs_group::{Added, Assembly, Clash};
use etcs_packet_text::inner::{Page, append_digits};
use etcs_runs::Form;
use etcs_telegram::Telegram;
use etcs_text::inner::{check_on, item_bits, json_on, json_seen, seen, show_on, show_seen};
use etcs_text::{Entry, Kind, encoded, hex_line};
use std::alloc::{AllocError, Global};
use std::marker::Model;

/// How many items were reported, and of a balise group how many of them clash and what is held.
#[derive(Drop)]
pub(crate) struct Printer {
    count: u64,
    clashes: u64,
    assembly: Assembly,
}

impl Model for Printer {
    ghost use Rattle.std.specs.Prelude.{◌≤◌};
    ghost use Rattle.etcs_stream.specs.Reported.{Reported};

    ghost Value = { Reported };

    ghost view = { λ t. record { count = t.count; clashes = t.clashes; held = t.assembly } };

    ghost invariant = { λ t. t.clashes ≤ t.count };
}

impl Printer {
    /// A printer that reported nothing.
    pub(crate) fn new() -> Printer
        ensures { result ≡ nothing_reported }
    {
        Printer {
            count: 0,
            clashes: 0,
            assembly: Assembly::new(),
        }
    }

    /// How many items were reported.
    pub(crate) fn count(&self) -> u64
        ensures { result ≡ self.now.count }
    {
        self.count
    }

    /// Appends what the command writes of the next item, with which these bytes begin, without a value of the item, and
    /// returns how many bytes it has. It may always return `None`, and then nothing is appended.
    ///
    /// # Errors
    ///
    /// `AllocError` if out of memory. Nothing is appended then.
    #[inline(always)]
    pub(crate) fn print_seen(
        &mut self,
        command: Command,
        kind: Kind,
        bytes: &[u8],
        page: &mut Page,
    ) -> Result<Option<usize>, AllocError>
        requires few { self.old.count < 1000000 }
        ensures some { IfOk result (λ o. IfSome o (λ n. (n ≤ length bytes.now) × (e : EntryValue) × IsOutcome (EntryReads kind) (bits bytes.now) (done e (8 * n)) × (added : List ℕ) × OutputsItem command e self.old added self.new × (page.new ≡ page.old ++ added))) }
        ensures count { IfOk result (λ o. IfSome o (λ n. self.new.count ≡ self.old.count + 1)) }
        ensures none { IfOk result (λ o. IsNone o → (self.new ≡ self.old) × (page.new ≡ page.old)) }
        ensures err { OnErr result ((self.new ≡ self.old) × (page.new ≡ page.old)) }
    {
        let item = self.count + 1;
        let taken = write_seen(command, kind, item, bytes, page)?;
        if taken.is_some() {
            self.count = item;
        }
        Ok(taken)
    }

    /// Appends what the command writes of the next item, whose JSON is this line and whose bytes are the first `count` of
    /// these, and returns whether it did. It may always return `false`, and then nothing is appended.
    ///
    /// # Errors
    ///
    /// `AllocError` if out of memory. Nothing is appended then.
    #[inline(always)]
    pub(crate) fn print_line(
        &mut self,
        command: Command,
        kind: Kind,
        line: &[u8],
        bytes: &[u8],
        count: usize,
        page: &mut Page,
    ) -> Result<bool, AllocError>
        requires few { self.old.count < 1000000 }
        requires short { count < 1024 }
        requires within { count ≤ length bytes.now }
        ensures ok { (e : EntryValue) → IsOutcome (EntryReads kind) (bits bytes.now) (done e (8 * count)) → IsEncoded e (take count bytes.now) → line.now ≡ compact_text (json_tree e) → IfOk result (λ written. IsTrue written → (added : List ℕ) × OutputsItem command e self.old added self.new × (page.new ≡ page.old ++ added)) }
        ensures none { IfOk result (λ written. written ≡ false → (self.new ≡ self.old) × (page.new ≡ page.old)) }
        ensures err { OnErr result ((self.new ≡ self.old) × (page.new ≡ page.old)) }
    {
        let next = self.count + 1;
        let written = write_line(command, kind, next, line, bytes, count, page)?;
        if written {
            self.count = next;
        }
        Ok(written)
    }

    /// Appends what the command writes of the next item, or nothing.
    ///
    /// # Errors
    ///
    /// `AllocError` if out of memory.
    pub(crate) fn print(
        &mut self,
        command: Command,
        entry: Entry,
        page: &mut Page,
    ) -> Result<(), AllocError>
        requires few { self.old.count < 1000000 }
        requires grouped { command ≡ Command.Group → IsOfTelegrams (entry_kind (entry_value entry)) }
        ensures count { self.new.count ≡ self.old.count + 1 }
        ensures ok { OnOk result ((added : List ℕ) × OutputsItem command (entry_value entry) self.old added self.new × (page.new ≡ page.old ++ added)) }
        ensures err { OnErr result (page.new ≡ page.old) }
    {
        if command == Command::Group {
            return self.print_grouped(entry, page);
        }
        self.print_alone(command, &entry, page)
    }

    /// Appends what a command writes of the next item by itself, or nothing.
    ///
    /// # Errors
    ///
    /// `AllocError` if out of memory.
    #[inline(always)]
    pub(crate) fn print_alone(
        &mut self,
        command: Command,
        entry: &Entry,
        page: &mut Page,
    ) -> Result<(), AllocError>
        requires few { self.old.count < 1000000 }
        requires alone { command ≡ Command.Group → ⊥ }
        ensures count { self.new.count ≡ self.old.count + 1 }
        ensures ok { OnOk result ((added : List ℕ) × OutputsItem command (entry_value entry.now) self.old added self.new × (page.new ≡ page.old ++ added)) }
        ensures err { OnErr result (page.new ≡ page.old) }
    {
        self.count += 1;
        write_alone(command, entry, self.count, page)
    }

    /// Appends what the command writes at the end of the input, or nothing, and returns the tally.
    ///
    /// # Errors
    ///
    /// `AllocError` if out of memory.
    pub(crate) fn close(
        &self,
        alloc: Global,
        command: Command,
        page: &mut Page,
    ) -> Result<Tally, AllocError>
        ensures ok { IfOk result (λ tally. (last : List ℕ) × Closes command self.now last tally × (page.new ≡ page.old ++ last)) }
        ensures err { OnErr result (page.new ≡ page.old) }
    {
        match command {
            Command::Group => self.close_group(alloc, page),
            Command::Show | Command::Check | Command::Convert(_) => Ok(Tally {
                items: self.count,
                clashes: 0,
                complete: true,
            }),
        }
    }

    /// Appends the last lines of a group, or nothing, and returns the tally.
    fn close_group(&self, alloc: Global, page: &mut Page) -> Result<Tally, AllocError>
        ensures ok { IfOk result (λ tally. (last : List ℕ) × Closes Command.Group self.now last tally × (page.new ≡ page.old ++ last)) }
        ensures err { OnErr result (page.new ≡ page.old) }
    {
        last_lines(alloc, &self.assembly, page)?;
        Ok(Tally {
            items: self.count,
            clashes: self.clashes,
            complete: self.assembly.is_complete(),
        })
    }

    /// Appends the line that reports what a telegram is to the group, or nothing.
    pub(crate) fn print_grouped(&mut self, entry: Entry, page: &mut Page) -> Result<(), AllocError>
        requires few { self.old.count < 1000000 }
        requires grouped { IsOfTelegrams (entry_kind (entry_value entry)) }
        ensures count { self.new.count ≡ self.old.count + 1 }
        ensures ok { OnOk result ((added : List ℕ) × OutputsItem Command.Group (entry_value entry) self.old added self.new × (page.new ≡ page.old ++ added)) }
        ensures err { OnErr result (page.new ≡ page.old) }
    {
        let answer = match entry {
            Entry::Telegram(telegram) => self.add(telegram),
            Entry::Message(_) | Entry::Train(_) => unreachable!(),
        };
        answer_line(self.count, answer, page)
    }

    /// Counts a telegram, and holds it if it fits those that are held.
    fn add(&mut self, telegram: Telegram) -> Result<Added, Clash>
        requires { self.old.count < 1000000 }
        ensures made { IsTelegram telegram }
        ensures answer { Answers self.old.held telegram result }
        ensures count { self.new.count ≡ self.old.count + 1 }
        ensures clashes { self.new.clashes ≡ clashes_with self.old.clashes result }
        ensures held { HeldAfter self.old.held telegram self.new.held }
        ensures placed { IsGroup self.new.held }
    {
        self.count += 1;
        match self.assembly.add(telegram) {
            Ok(added) => Ok(added),
            Err(refused) => {
                self.clashes += 1;
                Err(refused.0)
            }
        }
    }
}

/// Appends what a command writes of an item by itself, or nothing.
#[inline(always)]
fn write_alone(
    command: Command,
    entry: &Entry,
    item: u64,
    page: &mut Page,
) -> Result<(), AllocError>
    requires { command ≡ Command.Group → ⊥ }
    ensures ok { (s : Reported) → item ≡ s.count + 1 → OnOk result ((added : List ℕ) × OutputsItem command (entry_value entry.now) s added (one_more s) × (page.new ≡ page.old ++ added)) }
    ensures err { OnErr result (page.new ≡ page.old) }
{
    match command {
        Command::Show => show_on(entry, item, page),
        Command::Check => check_on(entry, item, page),
        Command::Convert(Form::Json) => json_on(entry, page),
        Command::Convert(Form::Hex) => hex_on(entry, page),
        Command::Convert(Form::Bin) => encoded_on(entry, page),
        Command::Group => unreachable!(),
    }
}

/// Appends what a command writes of the item of this number with which these bytes begin, and returns how many bytes it has.
/// It may always return `None`, and then nothing is appended, as in case of an error.
#[inline(always)]
fn write_seen(
    command: Command,
    kind: Kind,
    item: u64,
    bytes: &[u8],
    page: &mut Page,
) -> Result<Option<usize>, AllocError>
    ensures some { (s : Reported) → item ≡ s.count + 1 → IfOk result (λ o. IfSome o (λ n. (n ≤ length bytes.now) × (e : EntryValue) × IsOutcome (EntryReads kind) (bits bytes.now) (done e (8 * n)) × (added : List ℕ) × OutputsItem command e s added (one_more s) × (page.new ≡ page.old ++ added))) }
    ensures none { IfOk result (λ o. IsNone o → page.new ≡ page.old) }
    ensures err { OnErr result (page.new ≡ page.old) }
{
    match command {
        Command::Check => check_seen(kind, item, bytes, page),
        Command::Convert(form) => convert_seen(form, kind, bytes, page),
        Command::Show => show_seen(kind, item, bytes, page),
        Command::Group => Ok(None),
    }
}

/// Appends what a command writes of the item of this number, whose JSON is this line and whose bytes are the first `count`
/// of these, and returns whether it did. It may always return `false`, and then nothing is appended, as in case of an error.
#[inline(always)]
fn write_line(
    command: Command,
    kind: Kind,
    item: u64,
    line: &[u8],
    bytes: &[u8],
    count: usize,
    page: &mut Page,
) -> Result<bool, AllocError>
    requires short { count < 1024 }
    requires within { count ≤ length bytes.now }
    ensures ok { (s : Reported) (e : EntryValue) → item ≡ s.count + 1 → IsOutcome (EntryReads kind) (bits bytes.now) (done e (8 * count)) → IsEncoded e (take count bytes.now) → line.now ≡ compact_text (json_tree e) → IfOk result (λ written. IsTrue written → (added : List ℕ) × OutputsItem command e s added (one_more s) × (page.new ≡ page.old ++ added)) }
    ensures none { IfOk result (λ written. written ≡ false → page.new ≡ page.old) }
    ensures err { OnErr result (page.new ≡ page.old) }
{
    match command {
        Command::Check => {
            put_checked(kind, item, count, page)?;
            Ok(true)
        }
        Command::Convert(form) => {
            convert_line(form, line, &bytes[..count], page)?;
            Ok(true)
        }
        Command::Show => match show_seen(kind, item, bytes, page)? {
            Some(_) => Ok(true),
            None => Ok(false),
        },
        Command::Group => Ok(false),
    }
}

/// Appends the item that has this line as its JSON, and these bytes, in the form asked for; or nothing.
#[inline(always)]
fn convert_line(form: Form, line: &[u8], bytes: &[u8], page: &mut Page) -> Result<(), AllocError>
    ensures ok { (s : Reported) (e : EntryValue) → IsEncoded e bytes.now → line.now ≡ compact_text (json_tree e) → OnOk result ((added : List ℕ) × OutputsItem (Command.Convert form) e s added (one_more s) × (page.new ≡ page.old ++ added)) }
    ensures err { OnErr result (page.new ≡ page.old) }
{
    match form {
        Form::Hex => write_digits(bytes, page),
        Form::Bin => page.put(bytes),
        Form::Json => write_text(line, page),
    }
}

/// Appends the item with which these bytes begin in this form, as [`write_seen`] does.
#[inline(always)]
fn convert_seen(
    form: Form,
    kind: Kind,
    bytes: &[u8],
    page: &mut Page,
) -> Result<Option<usize>, AllocError>
    ensures some { (s : Reported) → IfOk result (λ o. IfSome o (λ n. (n ≤ length bytes.now) × (e : EntryValue) × IsOutcome (EntryReads kind) (bits bytes.now) (done e (8 * n)) × (added : List ℕ) × OutputsItem (Command.Convert form) e s added (one_more s) × (page.new ≡ page.old ++ added))) }
    ensures none { IfOk result (λ o. IsNone o → page.new ≡ page.old) }
    ensures err { OnErr result (page.new ≡ page.old) }
{
    match form {
        Form::Hex => hex_seen(kind, bytes, page),
        Form::Bin => bytes_seen(kind, bytes, page),
        Form::Json => json_seen(kind, bytes, page),
    }
}

/// Appends the line of the item of this number with which these bytes begin, as [`write_seen`] does.
#[inline(always)]
fn check_seen(
    kind: Kind,
    item: u64,
    bytes: &[u8],
    page: &mut Page,
) -> Result<Option<usize>, AllocError>
    ensures some { IfOk result (λ o. IfSome o (λ n. (n ≤ length bytes.now) × (e : EntryValue) × IsOutcome (EntryReads kind) (bits bytes.now) (done e (8 * n)) × (page.new ≡ page.old ++ check_line e item))) }
    ensures none { IfOk result (λ o. IsNone o → page.new ≡ page.old) }
    ensures err { OnErr result (page.new ≡ page.old) }
{
    let Some(count) = seen(kind, bytes) else {
        return Ok(None);
    };
    put_checked(kind, item, count, page)?;
    Ok(Some(count))
}

/// Appends the line of the accepted item of this number, which has this many bytes, or nothing. How many bits a telegram has
/// is a constant.
#[inline(always)]
fn put_checked(kind: Kind, item: u64, count: usize, page: &mut Page) -> Result<(), AllocError>
    requires { count < 1024 }
    ensures ok { (e : EntryValue) (b : List Bool) → IsOutcome (EntryReads kind) b (done e (8 * count)) → OnOk result (page.new ≡ page.old ++ check_line e item) }
    ensures err { OnErr result (page.new ≡ page.old) }
{
    match kind {
        Kind::Long => page.put_checked(item, item_bits(Kind::Long, count)),
        Kind::Short => page.put_checked(item, item_bits(Kind::Short, count)),
        Kind::Radio | Kind::Train => page.put_checked(item, item_bits(kind, count)),
    }
}

/// Appends the digits of the item with which these bytes begin and a LF, as [`write_seen`] does.
fn hex_seen(kind: Kind, bytes: &[u8], page: &mut Page) -> Result<Option<usize>, AllocError>
    ensures some { IfOk result (λ o. IfSome o (λ n. (n ≤ length bytes.now) × (e : EntryValue) × IsOutcome (EntryReads kind) (bits bytes.now) (done e (8 * n)) × (b : List ℕ) × IsEncoded e b × (page.new ≡ page.old ++ (encode_upper b ++ 10 ∷ [])))) }
    ensures none { IfOk result (λ o. IsNone o → page.new ≡ page.old) }
    ensures err { OnErr result (page.new ≡ page.old) }
{
    let Some(count) = seen(kind, bytes) else {
        return Ok(None);
    };
    write_digits(&bytes[..count], page)?;
    Ok(Some(count))
}

/// Appends the bytes of the item with which these begin, as [`write_seen`] does.
fn bytes_seen(kind: Kind, bytes: &[u8], page: &mut Page) -> Result<Option<usize>, AllocError>
    ensures some { IfOk result (λ o. IfSome o (λ n. (n ≤ length bytes.now) × (e : EntryValue) × IsOutcome (EntryReads kind) (bits bytes.now) (done e (8 * n)) × (b : List ℕ) × IsEncoded e b × (page.new ≡ page.old ++ b))) }
    ensures none { IfOk result (λ o. IsNone o → page.new ≡ page.old) }
    ensures err { OnErr result (page.new ≡ page.old) }
{
    let Some(count) = seen(kind, bytes) else {
        return Ok(None);
    };
    page.put(&bytes[..count])?;
    Ok(Some(count))
}

/// Appends the entry's encoding in digits and a LF to a page, or nothing.
fn hex_on(entry: &Entry, page: &mut Page) -> Result<(), AllocError>
    ensures ok { OnOk result ((bytes : List ℕ) × IsEncoded (entry_value entry.now) bytes × (page.new ≡ page.old ++ (encode_upper bytes ++ 10 ∷ []))) }
    ensures err { OnErr result (page.new ≡ page.old) }
{
    let mut text = page.take_text();
    let written = hex_line(entry, &mut text);
    *page = Page::after(text);
    written
}

/// Appends the entry's encoding to a page, or nothing.
fn encoded_on(entry: &Entry, page: &mut Page) -> Result<(), AllocError>
    ensures ok { OnOk result ((added : List ℕ) × IsEncoded (entry_value entry.now) added × (page.new ≡ page.old ++ added)) }
    ensures err { OnErr result (page.new ≡ page.old) }
{
    let mut text = page.take_text();
    let written = encoded(entry, &mut text);
    *page = Page::after(text);
    written
}

/// Appends a line and a LF to a page, or nothing.
fn write_text(line: &[u8], page: &mut Page) -> Result<(), AllocError>
    ensures ok { OnOk result (page.new ≡ page.old ++ (line.now ++ 10 ∷ [])) }
    ensures err { OnErr result (page.new ≡ page.old) }
{
    let len = page.len();
    page.put(line)?;
    let ended = page.put(b"\n");
    if ended.is_err() {
        page.cut(len);
    }
    ended
}

/// Appends the digits of bytes and a LF to a page, or nothing.
fn write_digits(bytes: &[u8], page: &mut Page) -> Result<(), AllocError>
    ensures ok { OnOk result (page.new ≡ page.old ++ (encode_upper bytes.now ++ 10 ∷ [])) }
    ensures err { OnErr result (page.new ≡ page.old) }
{
    let mut text = page.take_text();
    let written = append_digits(bytes, &mut text);
    *page = Page::after(text);
    written
}
