//! Places in rows.

ghost use Rattle.std.specs.Prelude.{◌≡◌, ◌↔◌, false, ℕ, ◌+◌, ◌-◌, ◌^◌, ◌<◌, ◌≤◌, [], ◌∷◌, length, take, drop, IsTrue, IsSome, IfSome, IsNone, Some, None, option_map};
ghost use Rattle.etcs_bits.specs.Bits.{bits};
ghost use Rattle.etcs_reader.specs.Rests.{Goes};
ghost use Rattle.etcs_tables.specs.Layouts.{layout, passes, guarded, counted, looks, Lengths, ReadsIn};
ghost use Rattle.etcs_rows.specs.Lengths.{FitsWithin, is_free};
ghost use Rattle.etcs_rows.specs.Sets.{In};
ghost use Rattle.etcs_rows.specs.Nearest.{IsNear};
ghost use Rattle.etcs_rows.specs.Places.{first_variable, after_any, after_number};
ghost use Rattle.etcs_rows.specs.Runs.{RunsTo};

use crate::fitting::{
    Around, around_first, fits_at, fits_by_steps, kept_by_steps, known_steps, meets_by_steps,
    tail_steps,
};
use crate::head::{Head, first_item, has_group};
use crate::length_set::LengthSet;
use crate::measure::{first_lengths, lengths_of};
use crate::near::Near;
use crate::progression::{Progression, steps_again};
use crate::speeds::{EntryNumbers, differing_at, is_differing, is_speed, speed_at};
use crate::takers::Kept;
use arrayvec::ArrayVec;
use etcs_tables::{Guard, Row, RowItem};
use etcs_vars::Var;
use std::fmt;
use std::marker::Model;

/// A group that is being read, or is about to be.
#[derive(Clone, Copy)]
pub struct Pending {
    /// The group's items, and how often it still occurs there after this time.
    pub group: &'static [RowItem],
    pub times: u64,
    /// What follows the group.
    pub items: &'static [RowItem],
    /// The number just before the group.
    pub before: u64,
    /// How many bits the group may take each time, if that was asked for and is in equal steps.
    pub steps: Option<Progression>,
    /// How many bits all may take that follows the group and waits further out, likewise.
    pub tail: Option<Progression>,
}

impl Default for Pending {
    fn default() -> Pending {
        Pending {
            group: &[],
            times: 0,
            items: &[],
            before: 0,
            steps: None,
            tail: None,
        }
    }
}

/// What is left of a row.
#[derive(Drop)]
pub struct Cursor {
    pub items: &'static [RowItem],
    /// The number of the variable just before.
    pub before: u64,
    pub pending: ArrayVec<Pending, 4>,
}

impl Cursor {
    ghost use Rattle.etcs_rows.specs.Cursors.{left_of, Nests, IsSettled, cursor_size};

    /// After the end of a group: the group again, or what follows it. Returns whether a variable comes next.
    fn leave(&mut self) -> bool
        requires ended { self.old.items.now ≡ [] }
        requires nests { Nests self.old }
        ensures same { left_of self.new ≡ left_of self.old }
        ensures nests { Nests self.new }
        ensures settled { IsTrue result → IsSettled self.new }
        ensures smaller { result ≡ false → cursor_size self.new < cursor_size self.old }
    {
        match self.pending.pop() {
            None => true,
            Some(top) => {
                self.before = top.before;
                if top.times > 0 {
                    self.items = top.group;
                    self.pending.push(Pending {
                        times: top.times - 1,
                        ..top
                    });
                    true
                } else {
                    self.items = top.items;
                    false
                }
            }
        }
    }

    /// At a guarded group: into it, or past it. Returns whether a variable comes next.
    fn enter_guarded(
        &mut self,
        guard: Guard,
        group: &'static [RowItem],
        rest: &'static [RowItem],
    ) -> bool
        requires here { layout self.old.items.now ≡ guarded guard (layout group.now) (layout rest.now) }
        requires shorter { length rest.now < length self.old.items.now }
        requires nests { Nests self.old }
        ensures same { left_of self.new ≡ left_of self.old }
        ensures nests { Nests self.new }
        ensures settled { IsTrue result → IsSettled self.new }
        ensures smaller { result ≡ false → cursor_size self.new < cursor_size self.old }
    {
        if guard.test.passes(self.before) {
            self.pending.push(Pending {
                group: &[],
                times: 0,
                items: rest,
                before: self.before,
                steps: None,
                tail: None,
            });
            self.items = group;
            true
        } else {
            self.items = rest;
            false
        }
    }

    /// At a counted group: into it, or past it. Returns whether a variable comes next.
    fn enter_counted(&mut self, group: &'static [RowItem], rest: &'static [RowItem]) -> bool
        requires here { layout self.old.items.now ≡ counted (layout group.now) (layout rest.now) }
        requires shorter { length rest.now < length self.old.items.now }
        requires nests { Nests self.old }
        ensures same { left_of self.new ≡ left_of self.old }
        ensures nests { Nests self.new }
        ensures settled { IsTrue result → IsSettled self.new }
        ensures smaller { result ≡ false → cursor_size self.new < cursor_size self.old }
    {
        if self.before > 0 {
            let steps = steps_again(group, self.before);
            let tail = tail_steps(rest, self.before, self.pending.as_slice());
            self.pending.push(Pending {
                group,
                times: self.before - 1,
                items: rest,
                before: self.before,
                steps,
                tail,
            });
            self.items = group;
            true
        } else {
            self.items = rest;
            false
        }
    }

    /// Opens groups until a variable comes next or the row has ended.
    #[inline]
    fn settle(&mut self)
        requires { Nests self.old }
        ensures same { left_of self.new ≡ left_of self.old }
        ensures nests { Nests self.new }
        ensures settled { IsSettled self.new }
    {
        match self.items.split_first() {
            Some((RowItem::One(_), _)) => {}
            _ => self.open(),
        }
    }

    /// The same, if no variable comes next already.
    #[inline(never)]
    fn open(&mut self)
        requires { Nests self.old }
        ensures same { left_of self.new ≡ left_of self.old }
        ensures nests { Nests self.new }
        ensures settled { IsSettled self.new }
    {
        let mut settled = false;
        while !settled {
            settled = match first_item(self.items) {
                Head::End => self.leave(),
                Head::One(_, _) => true,
                Head::When(guard, group, rest) => self.enter_guarded(guard, group, rest),
                Head::Many(group, rest) => self.enter_counted(group, rest),
            };
        }
    }
}

impl Cursor {
    ghost use Rattle.std.specs.Prelude.{reverse};
    ghost use Rattle.etcs_rows.specs.Cursors.{waiting, left_of, Nests, IsSettled};
    ghost use Rattle.etcs_rows.specs.Lengths.{LengthsBy};
    ghost use Rattle.etcs_rows.specs.Entries.{TakenTo};

    /// How many bits the entry of a speed profile has that is all of the current list, if the piece has it from `at` on,
    /// its numbers are admitted, and the row can end in its `len` bits with it if it can do so at all. It puts the numbers
    /// after the others. It may always return `None`.
    #[inline(always)]
    fn entry(
        &self,
        piece: &[u8],
        at: usize,
        len: usize,
        numbers: &mut EntryNumbers,
    ) -> Option<usize>
        requires nests { Nests self.now }
        requires inside { at ≤ length (bits piece.now) }
        requires small { length (bits piece.now) < 2 ^ 64 }
        requires none { numbers.old.items ≡ [] }
        ensures some { IfSome result (λ n. 0 < n) }
        ensures within { IfSome result (λ n. n ≤ len) }
        ensures taken { IfSome result (λ n. TakenTo (left_of self.now) len (bits piece.now) at n numbers.new.items (waiting (reverse self.now.pending.items)) (len - n)) }
        ensures lengths { IfSome result (λ n. LengthsBy (left_of self.now) 0 len → LengthsBy (waiting (reverse self.now.pending.items)) 0 (len - n)) }
    {
        if is_differing(self.items) {
            let count = differing_at(piece, at, numbers)?;
            return if count <= len { Some(count) } else { None };
        }
        if !is_speed(self.items) {
            return None;
        }
        let count = speed_at(piece, at, numbers)?;
        if count > len {
            return None;
        }
        let left = known_steps(self.pending.as_slice())?;
        if left.holds(len - count) {
            Some(count)
        } else {
            None
        }
    }

    /// Past all of the current list.
    fn skip(&mut self)
        requires { Nests self.old }
        ensures left { left_of self.new ≡ waiting (reverse self.old.pending.items) }
        ensures nests { Nests self.new }
        ensures settled { IsSettled self.new }
    {
        self.items = &[];
        self.settle();
    }
}

impl Cursor {
    ghost use Rattle.std.specs.Prelude.{reverse};
    ghost use Rattle.etcs_rows.specs.Cursors.{waiting, left_of};
    ghost use Rattle.etcs_rows.specs.Lengths.{LengthsBy};
    ghost use Rattle.etcs_rows.specs.Sets.{IsSet};

    /// How many bits the groups that wait may take.
    fn waiting_lengths(&self) -> LengthSet
        ensures { IsSet result (LengthsBy (waiting (reverse self.now.pending.items)) 0) }
    {
        let mut all = LengthSet::single(0);
        for pending in self.pending.as_slice() {
            let again = lengths_of(pending.group, pending.before).times(pending.times);
            let beyond = lengths_of(pending.items, pending.before).plus(&all);
            all = again.plus(&beyond);
        }
        all
    }

    /// How many bits may be left of the row.
    fn lengths(&self) -> LengthSet
        ensures { IsSet result (LengthsBy (left_of self.now) 0) }
    {
        lengths_of(self.items, self.before).plus(&self.waiting_lengths())
    }
}

/// A place in a row, seen as what is left of the row, which is a row again.
#[derive(Drop)]
pub struct Place {
    cursor: Cursor,
}

impl Model for Place {
    ghost use Rattle.std.specs.Prelude.{IsTrue, None};
    ghost use Rattle.etcs_tables.specs.Layouts.{Layout, looks};
    ghost use Rattle.etcs_rows.specs.Cursors.{left_of, Nests, IsSettled};
    ghost use Rattle.etcs_tables.specs.laws.Flat.{layout_code};

    ghost Value = { Layout };

    ghost coded = { layout_code };

    ghost view = { λ p. left_of p.cursor };

    ghost invariant = { λ p. Nests p.cursor × IsSettled p.cursor × IsTrue (looks None (left_of p.cursor)) };
}

impl fmt::Debug for Place {
    fn fmt<W: fmt::Write>(&self, f: &mut fmt::Formatter<W>) -> fmt::Result {
        f.write_str("Place")
    }
}

impl Place {
    /// The beginning of a row: all of it is left.
    pub fn start(row: Row) -> Place
        ensures left { result ≡ layout row.items.now }
        ensures looks { IsTrue (looks None result) }
    {
        let mut cursor = Cursor {
            items: row.items,
            before: 0,
            pending: ArrayVec::new(),
        };
        cursor.settle();
        Place { cursor }
    }

    /// The variable that comes next. `None` if nothing is left.
    pub fn var(&self) -> Option<Var>
        ensures { result ≡ first_variable self.now }
    {
        match self.cursor.items.split_first() {
            Some((RowItem::One(var), _)) => Some(*var),
            _ => None,
        }
    }

    /// What is left after a number of the next variable: groups that look at it are opened by it. `None` exactly if no
    /// variable comes next, or it doesn't admit the number.
    pub fn after(&self, number: u64) -> Option<Place>
        ensures { result ≡ after_number self.now number }
    {
        let var = self.var()?;
        if !var.admits(number) {
            return None;
        }
        let mut place = self.copied();
        place.pass(number);
        Some(place)
    }

    /// The same place once more.
    pub(crate) fn copied(&self) -> Place
        ensures { result ≡ self.now }
    {
        let mut pending = ArrayVec::new();
        let _whole = pending.try_extend_from_slice(self.cursor.pending.as_slice());
        Place {
            cursor: Cursor {
                items: self.cursor.items,
                before: self.cursor.before,
                pending,
            },
        }
    }

    /// Moves past the next variable: what is left is then what its number leaves, whether the variable admits it or
    /// not. A variable must come next.
    pub fn pass(&mut self, number: u64)
        requires next { IsSome (first_variable self.old) }
        ensures left { after_any self.old number ≡ Some self.new }
        ensures looks { IsTrue (looks None self.new) }
    {
        if let Some((_, rest)) = self.cursor.items.split_first() {
            self.cursor.before = number;
            self.cursor.items = rest;
            self.cursor.settle();
        }
    }

    /// Whether all of an entry of a speed profile comes next.
    #[inline(always)]
    pub(crate) fn is_at_entry(&self) -> bool {
        is_differing(self.cursor.items) || is_speed(self.cursor.items)
    }

    /// Moves past the entry of a speed profile that comes next, if the piece has it from `at` on, its numbers are admitted,
    /// and the row can end in its `len` bits with it if it can do so at all; and returns how many bits it has. The numbers
    /// are then those of the entry. It may always return `None`.
    pub(crate) fn pass_entry(
        &mut self,
        piece: &[u8],
        at: usize,
        len: usize,
        numbers: &mut EntryNumbers,
    ) -> Option<usize>
        requires inside { at ≤ length (bits piece.now) }
        requires small { length (bits piece.now) < 2 ^ 64 }
        ensures none { IsNone result → self.new ≡ self.old }
        ensures some { IfSome result (λ n. 0 < n) }
        ensures within { IfSome result (λ n. n ≤ len) }
        ensures looks { IsTrue (looks None self.new) }
        ensures run { IfSome result (λ n. RunsTo self.old len (bits piece.now) at n numbers.new.items self.new (len - n)) }
        ensures goes { IfSome result (λ n. Goes (ReadsIn self.old len) → Goes (ReadsIn self.new (len - n))) }
    {
        numbers.clear();
        let count = self.cursor.entry(piece, at, len, numbers)?;
        self.cursor.skip();
        Some(count)
    }

    /// Whether no group looks at the number of the next variable.
    pub(crate) fn is_free(&self) -> bool
        ensures { IsTrue result → IsTrue (is_free self.now) }
    {
        match self.cursor.items.split_first() {
            Some((RowItem::One(_), rest)) => !has_group(rest),
            _ => false,
        }
    }

    /// Whether this many bits may be left of the row, if the number of the next variable is from low to high.
    #[inline(never)]
    pub(crate) fn fits(&self, low: u64, high: u64, bits: usize) -> bool
        ensures { IsTrue result ↔ FitsWithin self.now low high bits }
    {
        if low == high {
            if let Some(answer) = fits_at(&self.cursor, low, bits) {
                return answer;
            }
        }
        self.fits_between(low, high, bits)
    }

    /// The same, by a walk over the groups that wait.
    #[inline(never)]
    fn fits_between(&self, low: u64, high: u64, bits: usize) -> bool
        ensures { IsTrue result ↔ FitsWithin self.now low high bits }
    {
        match fits_by_steps(&self.cursor, low, high, bits) {
            Some(answer) => answer,
            None => self.fits_by_sets(low, high, bits),
        }
    }

    /// The same, by the sets of lengths.
    #[cold]
    #[inline(never)]
    fn fits_by_sets(&self, low: u64, high: u64, bits: usize) -> bool
        ensures { IsTrue result ↔ FitsWithin self.now low high bits }
    {
        match self.cursor.items.split_first() {
            None => false,
            Some((RowItem::One(var), rest)) => first_lengths(*var, rest, low, high)
                .plus(&self.cursor.waiting_lengths())
                .holds(bits),
            Some((RowItem::When(_, _), _)) => false,
            Some((RowItem::Many(_), _)) => false,
        }
    }

    /// Whether this many bits, at most 8,191, may be left of the row.
    pub(crate) fn can_take(&self, bits: usize) -> bool
        ensures { IsTrue result ↔ Lengths self.now [] bits }
    {
        self.meets(bits, bits)
    }

    /// Whether a number of bits from low to high, at most 8,191, may be left of the row.
    pub(crate) fn meets(&self, low: usize, high: usize) -> bool
        ensures { IsTrue result ↔ ((m : ℕ) × Lengths self.now [] m × (low ≤ m) × (m ≤ high)) }
    {
        match meets_by_steps(&self.cursor, low, high) {
            Some(answer) => answer,
            None => self.lengths().any_in(low, high),
        }
    }

    /// How many bits may be left of the row.
    pub(crate) fn lengths(&self) -> LengthSet
        ensures { (m : ℕ) → In result m ↔ Lengths self.now [] m }
    {
        self.cursor.lengths()
    }
}

/// Exactly the numbers of bits, up to 8,191, that some reading of what is left of the row takes: those at which
/// [`reaches`] is true.
pub fn lengths(place: &Place) -> LengthSet
    ensures { (m : ℕ) → In result m ↔ Lengths place.now [] m }
{
    place.lengths()
}

/// Whether some reading of what is left of the row takes this many bits, and they are at most 8,191.
pub fn reaches(place: &Place, bits: usize) -> bool
    ensures { IsTrue result ↔ Lengths place.now [] bits }
{
    place.can_take(bits)
}

/// A place, for more than one question about the numbers of bits that may be left.
#[derive(Drop)]
pub struct Reach {
    place: Place,
    /// How many bits may be left, up to 8,191, as far as that was worked out.
    sums: Option<Kept>,
}

impl Model for Reach {
    ghost use Rattle.std.specs.Prelude.{◌≤◌, ◌↔◌, ℕ, IfSome, IsTrue, None};
    ghost use Rattle.etcs_tables.specs.Layouts.{Layout, looks};
    ghost use Rattle.etcs_tables.specs.laws.Flat.{layout_code};
    ghost use Rattle.etcs_rows.specs.Lengths.{LengthsBy};
    ghost use Rattle.etcs_rows.specs.Totals.{InSums};

    ghost Value = { Layout };

    ghost coded = { layout_code };

    ghost view = { λ r. r.place };

    ghost invariant = { λ r. IsTrue (looks None r.place) × IfSome r.sums (λ k. (m : ℕ) → m ≤ 8191 → InSums k.sums.items m ↔ LengthsBy r.place 0 m) };
}

impl Reach {
    /// The same place.
    pub fn new(place: Place) -> Reach
        ensures { result ≡ place }
    {
        let sums = kept_by_steps(&place.cursor);
        Reach { place, sums }
    }

    /// The greatest number of bits, up to 8,191, that some reading of what is left takes and that isn't above `bits`,
    /// and the least that isn't below it, each `None` if there is none. `bits` must be at most 8,191.
    pub fn around(&self, bits: usize) -> Near
        requires { bits ≤ 8191 }
        ensures { IsNear (λ m. Lengths self.now [] m) bits result }
    {
        if let Some(sums) = &self.sums {
            if let Some(near) = sums.around(bits) {
                return near.to(8191);
            }
        }
        self.place.lengths().around(bits)
    }
}

/// A place, for more than one question about which numbers of its next variable leave a number of bits.
#[derive(Drop)]
pub struct Fits<'a> {
    place: &'a Place,
    around: Option<Around>,
}

impl<'a> Model for Fits<'a> {
    ghost use Rattle.std.specs.Prelude.{◌≤◌, ◌↔◌, ℕ, IfSome};
    ghost use Rattle.etcs_tables.specs.Layouts.{Layout, layout};
    ghost use Rattle.etcs_tables.specs.laws.Flat.{layout_code};
    ghost use Rattle.etcs_rows.specs.Lengths.{GroupsWithin, FitsWithin};
    ghost use Rattle.etcs_rows.specs.Totals.{InSums};
    ghost use Rattle.etcs_rows.specs.Sums.{Plus};

    ghost Value = { Layout };

    ghost coded = { layout_code };

    ghost view = { λ f. f.place.now };

    ghost invariant = { λ f. IfSome f.around (λ a. (low high m : ℕ) → m ≤ 8191 → Plus (InSums a.sums.sums.items) (GroupsWithin a.var (layout a.rest.now) low high) m ↔ FitsWithin f.place.now low high m) };
}

impl<'a> Fits<'a> {
    /// The same place.
    pub fn new(place: &'a Place) -> Fits<'a>
        ensures { result ≡ place.now }
    {
        let around = around_first(&place.cursor);
        Fits { place, around }
    }

    /// Whether some reading of what is left of the row takes `bits` bits, at most 8,191, and begins with a number of
    /// the next variable from `low` to `high`, both included.
    pub fn any(&self, low: u64, high: u64, bits: usize) -> bool
        ensures { IsTrue result ↔ FitsWithin self.now low high bits }
    {
        if bits <= 8191 {
            if let Some(around) = &self.around {
                if let Some(answer) = around.any(low, high, bits) {
                    return answer;
                }
            }
        }
        self.place.fits(low, high, bits)
    }
}
