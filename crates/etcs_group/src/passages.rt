//! The groups of a log one after another, as a train passes them.

ghost use Rattle.std.specs.Prelude.{◌≡◌, ◌++◌, ◌∷◌, ℕ, List, None, IfNone, IfOk, IfSome, OnErr, OnOk};
ghost use Rattle.etcs_packet_text.specs.Fronts.{Begins};
ghost use Rattle.etcs_group.specs.GroupLines.{front_text};

use crate::groups::Group;
use crate::states::write_number;
use etcs_packet_text::inner::Page;
use etcs_telegram::Telegram;
use std::alloc::{AllocError, Global};

/// The telegrams of a group that follow one another: the line of the first, what is before that, and the group.
#[derive(Debug, Drop)]
pub(crate) struct Passage {
    line: u64,
    front: Vec<u8>,
    group: Group,
}

impl Passage {
    ghost use Rattle.etcs_group.specs.Passages.{IsPassageLine, PassageOf};

    /// The passage that begins with a telegram.
    ///
    /// # Errors
    ///
    /// `AllocError` if out of memory.
    fn of(line: u64, front: &[u8], telegram: Telegram, alloc: Global) -> Result<Passage, AllocError>
        ensures ok { IfOk result (λ p. PassageOf line front.now telegram p) }
    {
        let mut copied = Vec::new(alloc);
        copied.extend_from_slice(front)?;
        Ok(Passage {
            line,
            front: copied,
            group: Group::of(telegram),
        })
    }

    /// Appends the line of the passage.
    #[tactic(auto, using(etcs_packet_text::specs::laws::Fronts::begins_more))]
    fn write_line(&self, page: &mut Page) -> Result<(), AllocError>
        ensures ok { OnOk result ((line : List ℕ) × IsPassageLine self.now line × (page.new ≡ page.old ++ line)) }
        ensures err { OnErr result (Begins page.old page.new) }
    {
        write_number(b"line ", self.line, page)?;
        write_front(self.front.as_slice(), page)?;
        page.put(b" ")?;
        self.group.write_line(page)
    }
}

/// Appends a front after a blank; nothing if there is none.
#[tactic(auto, using(etcs_packet_text::specs::laws::Fronts::begins_more))]
fn write_front(front: &[u8], page: &mut Page) -> Result<(), AllocError>
    ensures ok { OnOk result (page.new ≡ page.old ++ front_text front.now) }
    ensures err { OnErr result (Begins page.old page.new) }
{
    if front.is_empty() {
        return Ok(());
    }
    page.put(b" ")?;
    page.put(front)
}

/// The passages of a log, of which it holds the last: its front and its telegrams, at most eight.
#[derive(Debug, Drop)]
pub struct Passages {
    alloc: Global,
    passage: Option<Passage>,
}

impl Passages {
    ghost use Rattle.etcs_group.specs.Passages.{ArePassages, EndsWith, GoesOn, IsNext, Joined, Passed, Passing};

    /// No passages.
    pub fn new(alloc: Global) -> Passages
        ensures { result.passage ≡ None }
    {
        Passages {
            alloc,
            passage: None,
        }
    }

    /// Takes the next telegram of a log, of this line and with this front, which is written as it is. It joins the passage
    /// if it is of the same group and [`Assembly::add`](crate::Assembly::add) accepts it beside what the passage holds.
    /// Otherwise it begins the next passage, and the line of the passage before is appended: `line`, the number of its first
    /// line, that line's front, and then its group as [`Groups::write`](crate::Groups::write) writes it, without clashes.
    ///
    /// # Errors
    ///
    /// `AllocError` if out of memory. Nothing is then appended, and the telegram is dropped.
    pub fn add(
        &mut self,
        line: u64,
        front: &[u8],
        telegram: Telegram,
        out: &mut Vec<u8>,
    ) -> Result<(), AllocError>
        ensures ok { OnOk result ((text : List ℕ) × GoesOn self.old.passage line front.now telegram self.new.passage text × (out.new.items ≡ out.old.items ++ text)) }
        // So after any calls, this is the text of the telegrams so far.
        ensures passed { OnOk result ((earlier : List Passing) (before : List ℕ) → Passed earlier self.old.passage before → (text : List ℕ) × Passed (record { line = line; front = front.now; telegram = telegram } ∷ earlier) self.new.passage (before ++ text) × (out.new.items ≡ out.old.items ++ text)) }
        ensures err { OnErr result (out.new.items ≡ out.old.items) }
    {
        let Some(telegram) = self.take(telegram) else {
            return Ok(());
        };
        let next = Passage::of(line, front, telegram, self.alloc)?;
        self.finish(out)?;
        self.passage = Some(next);
        Ok(())
    }

    /// Appends the line of the last passage, if there is one.
    ///
    /// # Errors
    ///
    /// `AllocError` if out of memory. Nothing is then appended.
    pub fn finish(&self, out: &mut Vec<u8>) -> Result<(), AllocError>
        ensures ok { OnOk result ((text : List ℕ) × EndsWith self.now.passage text × (out.new.items ≡ out.old.items ++ text)) }
        // So this ends the text of all passages.
        ensures all { OnOk result ((telegrams : List Passing) (before : List ℕ) → Passed telegrams self.now.passage before → (text : List ℕ) × ArePassages telegrams (before ++ text) × (out.new.items ≡ out.old.items ++ text)) }
        ensures err { OnErr result (out.new.items ≡ out.old.items) }
    {
        let Some(passage) = &self.passage else {
            return Ok(());
        };
        let len = out.len();
        let mut page = Page::open(out);
        let written = passage.write_line(&mut page);
        if written.is_err() {
            page.cut(len);
        }
        *out = page.into_text();
        written
    }

    /// Gives the telegram to the passage, or returns it if it begins the next one.
    fn take(&mut self, telegram: Telegram) -> Option<Telegram>
        ensures some { IfSome result (λ t. (t ≡ telegram) × (self.new ≡ self.old) × IsNext self.old.passage telegram) }
        ensures none { IfNone result (Joined self.old.passage telegram self.new.passage) }
    {
        match &mut self.passage {
            Some(passage) => passage.group.take(telegram),
            None => Some(telegram),
        }
    }
}
