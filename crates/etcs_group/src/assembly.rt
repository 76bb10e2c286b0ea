//! The telegrams of a group.

ghost use Rattle.std.specs.Prelude.{◌≡◌, ◌↔◌, ◌<◌, ℕ, None, replicate, List, ◌∷◌, true, IsTrue, IfSome, IfNone, IfErr, OnErr, slice_get};
ghost use Rattle.etcs_telegram.specs.Telegrams.{TelegramContent};
ghost use Rattle.etcs_group.specs.Groups.{Alike, Holds, HoldsNone, IsGroup, Joins, HeldAfter, IsHeldOf};
ghost use Rattle.etcs_group.specs.Clashes.{IsFirstClash};
ghost use Rattle.etcs_group.specs.Messages.{IsHeldAt, IsHeldAs, IsMissing, IsLacking, IsWhole};

use crate::clash::{Clash, first_clash};
use etcs_telegram::Telegram;
use etcs_telegram::inner::header_numbers;
use std::marker::Model;

/// What an accepted telegram is to those that are held.
#[derive(Clone, Copy, Debug, PartialEq, Eq)]
pub enum Added {
    /// None was held at its position.
    New,
    /// An equal telegram was already held at its position; the new one was dropped.
    Repeat,
}

/// The telegrams of a balise group, in whatever order they come (SUBSET-026, 3.16.2.4): at most one for each of the eight
/// positions. It allocates nothing: it holds the telegrams that it is given. Telegrams are compared by `==`, which is
/// equality of their values.
#[derive(Debug, Drop)]
pub struct Assembly {
    held: [Option<Telegram>; 8],
}

impl Model for Assembly {
    ghost use Rattle.std.specs.Prelude.{List, Option};
    ghost use Rattle.etcs_telegram.specs.Telegrams.{TelegramContent};

    ghost Value = { List (Option TelegramContent) };

    ghost use Rattle.etcs_group.specs.Groups.{IsGroup};

    ghost view = { λ a. a.held };

    ghost invariant = { λ a. IsGroup a.held };
}

impl Assembly {
    /// An assembly that holds nothing.
    pub fn new() -> Assembly
        ensures none { HoldsNone result }
        ensures places { result ≡ replicate 8 None }
    {
        Assembly {
            held: [None, None, None, None, None, None, None, None],
        }
    }

    /// Holds the telegram if its position and M_DUP are possible and it fits every telegram that is held:
    /// [`Added::New`] exactly if it then wasn't held before, [`Added::Repeat`] exactly if it was. So after any calls,
    /// what is held is the set that their telegrams make of the empty one.
    ///
    /// If all telegrams of a list are accepted in one order, they are in every order, and what is held afterwards is
    /// the same (`laws::any_order`). Takes no memory.
    ///
    /// # Errors
    ///
    /// Else the first [`Clash`], in the order of its variants, that the telegram has with what is held, and the same
    /// telegram. What is held stays as it was.
    pub fn add(&mut self, telegram: Telegram) -> Result<Added, (Clash, Telegram)>
        ensures held { HeldAfter self.old telegram self.new }
        ensures placed { IsGroup self.new }
        // So after any calls, what is held is what their telegrams make of an empty assembly.
        ensures adds { (earlier : List TelegramContent) → IsHeldOf earlier self.old → IsHeldOf (telegram ∷ earlier) self.new }
        ensures new { (result ≡ Ok Added.New) ↔ (Joins self.old telegram × (Holds self.old telegram → ⊥)) }
        ensures repeat { (result ≡ Ok Added.Repeat) ↔ (Joins self.old telegram × Holds self.old telegram) }
        ensures clash { IfErr result (λ e. IsFirstClash e.0 self.old telegram) }
        ensures telegram { IfErr result (λ e. e.1 ≡ telegram) }
        ensures err { OnErr result (self.new ≡ self.old) }
    {
        if let Some(clash) = first_clash(&self.held, &telegram) {
            return Err((clash, telegram));
        }
        let position = position_of(&telegram);
        if self.held[position].is_some() {
            return Ok(Added::Repeat);
        }
        self.held[position] = Some(telegram);
        Ok(Added::New)
    }

    /// True at exactly the positions, of 0 to 7, that are missing: those at most N_TOTAL that aren't held, of which
    /// neither the position before is held with M_DUP 1, nor the one after with M_DUP 2. If nothing is held, none is
    /// missing.
    pub fn missing(&self) -> [bool; 8]
        ensures { (p : ℕ) → (slice_get result p ≡ Some true) ↔ IsMissing self.now p }
    {
        let mut missing = [false; 8];
        if let Some(total) = self.total() {
            for position in 0..total + 1 {
                missing[position] = self.is_lacking(position);
            }
        }
        missing
    }

    /// True exactly if something is held and no position is missing.
    pub fn is_complete(&self) -> bool
        ensures { IsTrue result ↔ IsWhole self.now }
    {
        self.total().is_some() && !self.missing().contains(&true)
    }

    /// A telegram that is held, if one is.
    pub(crate) fn first_held(&self) -> Option<&Telegram>
        ensures some { IfSome result (λ t. Holds self.now t.now) }
        ensures small { IfSome result (λ t. t.now.header.n_total < 8) }
        ensures alike { IfSome result (λ t. (u : TelegramContent) → Holds self.now u → Alike u t.now) }
        ensures none { IfNone result (HoldsNone self.now) }
    {
        first_in(&self.held)
    }

    /// N_TOTAL of the telegrams that are held, if any are.
    fn total(&self) -> Option<usize>
        ensures small { IfSome result (λ total. total < 8) }
        ensures held { IfSome result (λ total. (t : TelegramContent) × Holds self.now t) }
        ensures total { IfSome result (λ total. (t : TelegramContent) → Holds self.now t → t.header.n_total ≡ total) }
        ensures none { IfNone result (HoldsNone self.now) }
    {
        match self.first_held() {
            Some(telegram) => Some(telegram.header().n_total() as usize),
            None => None,
        }
    }

    /// The telegram that is held at the position.
    pub(crate) fn at(&self, position: usize) -> Option<&Telegram>
        ensures some { IfSome result (λ t. Holds self.now t.now × (t.now.header.n_pig ≡ position)) }
        ensures only { IfSome result (λ t. (u : TelegramContent) → Holds self.now u → u.header.n_pig ≡ position → u ≡ t.now) }
        ensures none { IfNone result (IsHeldAt self.now position → ⊥) }
    {
        match self.held.get(position) {
            Some(Some(telegram)) => Some(telegram),
            _ => None,
        }
    }

    /// Whether a telegram with this M_DUP is held at the position.
    pub(crate) fn is_held_as(&self, position: usize, m_dup: u8) -> bool
        ensures { IsTrue result ↔ IsHeldAs self.now position m_dup }
    {
        match self.at(position) {
            Some(telegram) => telegram.header().m_dup() == m_dup,
            None => false,
        }
    }

    /// Whether neither the position nor a duplicate of it is held.
    fn is_lacking(&self, position: usize) -> bool
        requires { position < 8 }
        ensures { IsTrue result ↔ IsLacking self.now position }
    {
        if self.at(position).is_some() || self.is_held_as(position + 1, 2) {
            return false;
        }
        position == 0 || !self.is_held_as(position - 1, 1)
    }
}

/// The first telegram among these places.
fn first_in(held: &[Option<Telegram>]) -> Option<&Telegram>
    ensures some { IfSome result (λ t. Holds held.now t.now) }
    ensures none { IfNone result (HoldsNone held.now) }
{
    for slot in held {
        if let Some(telegram) = slot {
            return Some(telegram);
        }
    }
    None
}

/// N_PIG, as an index of the eight places.
fn position_of(telegram: &Telegram) -> usize
    ensures position { result ≡ telegram.now.header.n_pig }
    ensures small { result < 8 }
    ensures total { telegram.now.header.n_total < 8 }
{
    let numbers = header_numbers(telegram.header());
    numbers[3] as usize
}
