//! A reader of each kind.

ghost use Rattle.std.specs.Prelude.{◌≡◌, IfOk, IfSome};
ghost use Rattle.etcs_text.specs.Verdicts.{IsVerdict};
ghost use Rattle.etcs_text.specs.declared.entry.Kind.{Kind};

use etcs_text::{Kind, SingleReader, Verdict};
use std::alloc::{AllocError, Global};
use std::marker::Model;

/// Readers of all kinds. Each is made when it first reads, and on the heap: it takes too much stack for the place where lines
/// are read.
#[derive(Drop)]
pub(crate) struct Readers {
    alloc: Global,
    long: Option<Box<SingleReader>>,
    short: Option<Box<SingleReader>>,
    radio: Option<Box<SingleReader>>,
    train: Option<Box<SingleReader>>,
}

impl Model for Readers {
    ghost use Rattle.std.specs.Prelude.{◌≡◌, ⊤, IfSome};
    ghost use Rattle.etcs_text.specs.declared.entry.Kind.TheVariants.{Long, Short, Radio, Train};

    ghost Value = { ⊤ };

    ghost view = { λ r. tt };

    ghost invariant = { λ r. IfSome r.long (λ b. b.value ≡ Long) × IfSome r.short (λ b. b.value ≡ Short) × IfSome r.radio (λ b. b.value ≡ Radio) × IfSome r.train (λ b. b.value ≡ Train) };
}

/// A reader that has read nothing. Not inlined, so that it is on the stack only while it is made.
///
/// # Errors
///
/// If memory runs out.
#[inline(never)]
fn boxed(alloc: Global, kind: Kind) -> Result<Box<SingleReader>, AllocError>
    ensures { IfOk result (λ b. b.value ≡ kind) }
{
    Ok(Box::new(alloc, SingleReader::new(alloc, kind))?)
}

/// What these bytes are as an item of the kind, by the reader of the slot, which is made if there is none.
///
/// # Errors
///
/// If memory runs out.
fn read_in(
    slot: &mut Option<Box<SingleReader>>,
    alloc: Global,
    kind: Kind,
    bytes: &[u8],
) -> Result<Verdict, AllocError>
    requires { IfSome slot.old (λ b. b.value ≡ kind) }
    ensures slot { IfSome slot.new (λ b. b.value ≡ kind) }
    ensures verdict { IfOk result (λ v. IsVerdict kind bytes.now v) }
{
    if let Some(reader) = slot {
        return reader.as_mut().read(bytes);
    }
    let mut reader = boxed(alloc, kind)?;
    let verdict = reader.as_mut().read(bytes);
    *slot = Some(reader);
    verdict
}

impl Readers {
    /// Nothing was read.
    pub(crate) fn new(alloc: Global) -> Readers {
        Readers {
            alloc,
            long: None,
            short: None,
            radio: None,
            train: None,
        }
    }

    /// What these bytes are as an item of the kind.
    ///
    /// # Errors
    ///
    /// If memory runs out.
    pub(crate) fn read(&mut self, kind: Kind, bytes: &[u8]) -> Result<Verdict, AllocError>
        ensures { IfOk result (λ v. IsVerdict kind bytes.now v) }
    {
        match kind {
            Kind::Long => read_in(&mut self.long, self.alloc, Kind::Long, bytes),
            Kind::Short => read_in(&mut self.short, self.alloc, Kind::Short, bytes),
            Kind::Radio => read_in(&mut self.radio, self.alloc, Kind::Radio, bytes),
            Kind::Train => read_in(&mut self.train, self.alloc, Kind::Train, bytes),
        }
    }
}
