//! What bytes are: an item and nothing else, or not.

ghost use Rattle.std.specs.Prelude.{◌≡◌, [], IfOk};
ghost use Rattle.etcs_text.specs.Entries.{EntryValue, entry_value};
ghost use Rattle.etcs_text.specs.Readers.{finished, reading};
ghost use Rattle.etcs_text.specs.Verdicts.{IsVerdict};

use crate::entries::EntryReader;
use crate::{Entry, Kind};
use etcs_vars::{Fed, ReadFault, Var};
use std::alloc::{AllocError, Global};
use std::marker::Model;
use std::mem::replace;

/// What bytes are.
#[derive(Debug, Drop)]
pub enum Verdict {
    /// This item, and nothing else.
    Item(Entry),
    /// `bit`, counted from 0, is the first with which no item continues, and `var` is the variable that holds it.
    Refused { bit: usize, var: Var },
    /// They aren't an item, but one continues with all of them.
    TooShort,
    /// They begin with an item that has fewer bytes.
    TooLong,
}

/// Reads items of a kind, each by itself.
#[derive(Drop)]
pub struct SingleReader {
    alloc: Global,
    kind: Kind,
    reader: EntryReader,
}

impl Model for SingleReader {
    ghost use Rattle.std.specs.Prelude.{◌≡◌, []};
    ghost use Rattle.etcs_text.specs.declared.entry.Kind.{Kind};
    ghost use Rattle.etcs_text.specs.Readers.{reading};

    ghost Value = { Kind };

    ghost view = { λ s. s.kind };

    ghost invariant = { λ s. s.reader ≡ record { kind = s.kind; progress = reading [] } };
}

/// The item that is whole. The reader then reads the next one.
fn take(reader: &mut EntryReader) -> Entry
    requires whole { (e : EntryValue) × (reader.old.progress ≡ finished e) }
    ensures fresh { reader.new ≡ record { kind = reader.old.kind; progress = reading [] } }
    ensures item { reader.old.progress ≡ finished (entry_value result) }
{
    match reader.next() {
        Ok(entry) => entry,
        Err(()) => unreachable!(),
    }
}

/// Puts a reader of this kind in place of one that has read a part of an item, or more than one.
#[inline(never)]
fn renew(reader: &mut EntryReader, alloc: Global, kind: Kind)
    ensures { reader.new ≡ record { kind = kind; progress = reading [] } }
{
    drop(replace(reader, EntryReader::new(alloc, kind)));
}

impl SingleReader {
    /// A reader of single items of this kind.
    pub fn new(alloc: Global, kind: Kind) -> SingleReader
        ensures { result ≡ kind }
    {
        SingleReader {
            alloc,
            kind,
            reader: EntryReader::new(alloc, kind),
        }
    }

    /// What these bytes are, read by themselves, whatever was read before. If it succeeds: [`Verdict::Item`] exactly if
    /// they are the spelling of an item of the kind and nothing else; else `Refused` with the first bit with which no
    /// item continues and the variable that holds it, `TooShort` if an item continues with all of them, or `TooLong` if
    /// they begin with an item that has fewer bytes.
    ///
    /// # Errors
    ///
    /// `AllocError` if out of memory. The reader keeps its kind in any case, and can still be used.
    pub fn read(&mut self, bytes: &[u8]) -> Result<Verdict, AllocError>
        ensures kind { self.new ≡ self.old }
        ensures verdict { IfOk result (λ v. IsVerdict self.old bytes.now v) }
    {
        let verdict = match self.reader.feed(bytes) {
            Ok(Fed::Done { taken }) => {
                if taken == bytes.len() {
                    let entry = take(&mut self.reader);
                    return Ok(Verdict::Item(entry));
                }
                Ok(Verdict::TooLong)
            }
            Ok(Fed::More) => Ok(Verdict::TooShort),
            Err(ReadFault::Refused { bit, var }) => Ok(Verdict::Refused { bit, var }),
            Err(ReadFault::Memory) => Err(AllocError),
            Err(ReadFault::Ended) => unreachable!(),
        };
        renew(&mut self.reader, self.alloc, self.kind);
        verdict
    }
}
