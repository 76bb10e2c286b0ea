//! The balise groups of many telegrams.

ghost use Rattle.std.specs.Prelude.{◌≡◌, ◌++◌, ◌+◌, ◌*◌, ℕ, List, [], ◌∷◌, length, slice_get, None, IfOk, OnOk, OnErr, IfSome, IfNone};
ghost use Rattle.etcs_telegram.specs.Telegrams.{TelegramContent};
ghost use Rattle.etcs_packet_text.specs.Fronts.{Begins};
ghost use Rattle.etcs_group.specs.declared.groups.Group.{Group};
ghost use Rattle.etcs_group.specs.Clashes.{IsFirstClash};
ghost use Rattle.etcs_group.specs.Groups.{Joins};
ghost use Rattle.etcs_group.specs.ManyGroups.{GroupAfter, GroupHolds, Adds, AreGroupsOf, AreDistinct, HasNone, IsClashWith, IsOfNumbers, Opens, Takes, empty_group, group_key};
ghost use Rattle.etcs_group.specs.GroupLines.{IsGroupLine, AreGroupLines, clashes_text};

use crate::assembly::Assembly;
use crate::clash::Clash;
use crate::states::{write_number, write_state};
use etcs_packet_text::inner::Page;
use etcs_telegram::Telegram;
use std::alloc::{AllocError, Global};
use std::collections::BTreeMap;
use std::marker::Model;

/// A balise group: what is held of it, and how many of its telegrams clashed.
#[derive(Debug, Drop)]
pub(crate) struct Group {
    nid_c: u16,
    nid_bg: u16,
    held: Assembly,
    clashes: u64,
}

impl Group {
    /// A group that holds nothing, of these numbers.
    pub(crate) fn new(nid_c: u16, nid_bg: u16) -> Group
        ensures { result ≡ empty_group nid_c nid_bg }
    {
        Group {
            nid_c,
            nid_bg,
            held: Assembly::new(),
            clashes: 0,
        }
    }

    /// Holds the telegram, or counts it as a clash and returns that.
    fn add(&mut self, telegram: Telegram) -> Option<Clash>
        ensures after { GroupAfter self.old telegram self.new }
        ensures clash { IfSome result (λ c. IsFirstClash c self.old.held telegram) }
        ensures joins { IfNone result (Joins self.old.held telegram) }
    {
        match self.held.add(telegram) {
            Ok(_) => None,
            Err((clash, _)) => {
                self.clashes = self.clashes.saturating_add(1);
                Some(clash)
            }
        }
    }

    /// Holds the telegram if it is of the group and joins what is held; else returns it.
    pub(crate) fn take(&mut self, telegram: Telegram) -> Option<Telegram>
        ensures some { IfSome result (λ t. (t ≡ telegram) × (self.new ≡ self.old) × (Takes self.old telegram → ⊥)) }
        ensures none { IfNone result (Takes self.old telegram × GroupHolds self.old telegram self.new) }
    {
        let header = telegram.header();
        if header.nid_c() != self.nid_c || header.nid_bg() != self.nid_bg {
            return Some(telegram);
        }
        match self.held.add(telegram) {
            Err((_, telegram)) => Some(telegram),
            Ok(_) => None,
        }
    }

    /// The group of a telegram, which it holds unless the telegram clashes by itself.
    pub(crate) fn of(telegram: Telegram) -> Group
        ensures { GroupHolds (empty_group telegram.header.nid_c telegram.header.nid_bg) telegram result }
    {
        let header = telegram.header();
        let mut group = Group::new(header.nid_c(), header.nid_bg());
        let _ = group.held.add(telegram);
        group
    }

    /// Appends the group's line.
    #[tactic(auto, using(etcs_packet_text::specs::laws::Fronts::begins_more))]
    pub(crate) fn write_line(&self, page: &mut Page) -> Result<(), AllocError>
        ensures ok { OnOk result ((line : List ℕ) × IsGroupLine self.now line × (page.new ≡ page.old ++ line)) }
        ensures err { OnErr result (Begins page.old page.new) }
    {
        write_number(b"group ", self.nid_c as u64, page)?;
        write_number(b" ", self.nid_bg as u64, page)?;
        write_state(&self.held, page)?;
        write_clashes(self.clashes, page)?;
        page.put(b"\n")
    }
}

/// Balise groups by NID_C and NID_BG, in the order in which they began. A group takes 720 bytes, up to twice that when
/// the list has spare room, some 25 bytes for its place, and the memory of its telegrams, at most eight.
#[derive(Debug, Drop)]
pub struct Groups {
    groups: Vec<Group>,
    places: BTreeMap<u32, usize>,
}

impl Model for Groups {
    ghost use Rattle.std.specs.Prelude.{List};
    ghost use Rattle.etcs_group.specs.declared.groups.Group.{Group};
    ghost use Rattle.etcs_group.specs.ManyGroups.{Indexes};

    ghost Value = { List Group };

    ghost view = { λ a. a.groups.items };

    ghost invariant = { λ a. Indexes a.places a.groups.items };
}

impl Groups {
    /// No groups.
    pub fn new(alloc: Global) -> Groups
        ensures { result ≡ [] }
    {
        Groups {
            groups: Vec::new(alloc),
            places: BTreeMap::new(alloc),
        }
    }

    /// Adds the telegram to the group of its NID_C and NID_BG. If it clashes with what that group holds
    /// ([`Assembly::add`]), it is dropped, the group counts a clash, up to 2^64 - 1, and the clash is returned; all other
    /// groups are as before. If there is no such group, it begins, after all others.
    ///
    /// So after any calls that succeed, the groups are those of their telegrams in this order, and no two have the same
    /// numbers.
    ///
    /// # Errors
    ///
    /// `AllocError` if out of memory. The groups are then as before, and the telegram is dropped.
    pub fn add(&mut self, telegram: Telegram) -> Result<Option<Clash>, AllocError>
        ensures ok { OnOk result (Adds self.old telegram self.new) }
        ensures clash { IfOk result (λ clash. IsClashWith self.old telegram clash) }
        // So after any calls, the groups are those of the telegrams that were added.
        ensures adds { OnOk result ((earlier : List TelegramContent) → AreGroupsOf earlier self.old → AreGroupsOf (earlier ++ telegram ∷ []) self.new) }
        ensures err { OnErr result (self.new ≡ self.old) }
        ensures distinct { AreDistinct self.new }
    {
        let header = telegram.header();
        let place = self.open(header.nid_c(), header.nid_bg())?;
        Ok(self.groups[place].add(telegram))
    }

    /// Appends a line for each group, in their order: `group`, NID_C and NID_BG; `complete`, `missing` with exactly the
    /// positions that are missing, or `empty` if nothing is held; and `clashes` with how many telegrams clashed, if any
    /// did.
    ///
    /// # Errors
    ///
    /// `AllocError` if out of memory. Nothing is then appended.
    pub fn write(&self, out: &mut Vec<u8>) -> Result<(), AllocError>
        ensures ok { OnOk result ((text : List ℕ) × AreGroupLines self.now text × (out.new.items ≡ out.old.items ++ text)) }
        ensures err { OnErr result (out.new.items ≡ out.old.items) }
    {
        let len = out.len();
        let mut page = Page::open(out);
        let written = write_lines(self.groups.as_slice(), &mut page);
        if written.is_err() {
            page.cut(len);
        }
        *out = page.into_text();
        written
    }

    /// The place of the group of these numbers, which is begun if there is none.
    fn open(&mut self, nid_c: u16, nid_bg: u16) -> Result<usize, AllocError>
        ensures ok { IfOk result (λ place. Opens self.old nid_c nid_bg place self.new) }
        ensures err { OnErr result (self.new ≡ self.old) }
        ensures distinct { AreDistinct self.old }
    {
        match self.find(nid_c, nid_bg) {
            Some(place) => Ok(place),
            None => self.begin(nid_c, nid_bg),
        }
    }

    /// The place of the group of these numbers, if there is one.
    fn find(&self, nid_c: u16, nid_bg: u16) -> Option<usize>
        ensures some { IfSome result (λ place. (g : Group) × (slice_get self.now place ≡ Some g) × IsOfNumbers nid_c nid_bg g) }
        ensures none { IfNone result (HasNone self.now nid_c nid_bg) }
        ensures distinct { AreDistinct self.now }
    {
        match self.places.get(&key_of(nid_c, nid_bg)) {
            Some(place) => Some(*place),
            None => None,
        }
    }

    /// Begins the group of these numbers, and returns its place.
    fn begin(&mut self, nid_c: u16, nid_bg: u16) -> Result<usize, AllocError>
        requires { HasNone self.old nid_c nid_bg }
        ensures place { IfOk result (λ place. place ≡ length self.old) }
        ensures ok { OnOk result (self.new ≡ self.old ++ empty_group nid_c nid_bg ∷ []) }
        ensures err { OnErr result (self.new ≡ self.old) }
    {
        let place = self.groups.len();
        self.groups.push(Group::new(nid_c, nid_bg))?;
        if self.places.insert(key_of(nid_c, nid_bg), place).is_err() {
            self.groups.pop();
            return Err(AllocError);
        }
        Ok(place)
    }
}

/// NID_C and NID_BG as one number.
fn key_of(nid_c: u16, nid_bg: u16) -> u32
    ensures { result ≡ group_key nid_c nid_bg }
{
    nid_c as u32 * 65536 + nid_bg as u32
}

/// Appends a count of clashes, if there are any.
#[tactic(auto, using(etcs_packet_text::specs::laws::Fronts::begins_more))]
fn write_clashes(clashes: u64, page: &mut Page) -> Result<(), AllocError>
    ensures ok { OnOk result (page.new ≡ page.old ++ clashes_text clashes) }
    ensures err { OnErr result (Begins page.old page.new) }
{
    if clashes == 0 {
        return Ok(());
    }
    write_number(b" clashes ", clashes, page)
}

/// Appends the lines of groups.
#[tactic(auto, using(etcs_packet_text::specs::laws::Fronts::begins_more))]
fn write_lines(groups: &[Group], page: &mut Page) -> Result<(), AllocError>
    ensures ok { OnOk result ((text : List ℕ) × AreGroupLines groups.now text × (page.new ≡ page.old ++ text)) }
    ensures err { OnErr result (Begins page.old page.new) }
{
    for group in groups {
        group.write_line(page)?;
    }
    Ok(())
}
