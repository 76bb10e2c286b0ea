//! The entries of a static speed profile, all variables of one together: no other packet has lists in its lists
//! (packet 27; SUBSET-026, 7.4).

ghost use Rattle.std.specs.Prelude.{◌≡◌, ℕ, ◌+◌, ◌*◌, ◌^◌, ◌<◌, ◌≤◌, [], ◌++◌, List, length, IsTrue, IfSome};
ghost use Rattle.arrayvec.specs.ArrayVec.{array_vec_len};
ghost use Rattle.etcs_bits.specs.Bits.{bits};
ghost use Rattle.etcs_vars.specs.Vars.{admits};
ghost use Rattle.etcs_tables.specs.Layouts.{layout, whole, counted};
ghost use Rattle.etcs_rows.specs.Entries.{differing, speed, category_of, ListIn};

use arrayvec::ArrayVec;
use etcs_bits::next_bits;
use etcs_tables::{Guard, RowItem, Test};
use etcs_vars::Var;

/// The numbers of an entry, at most those of a speed and of 31 for some trains.
pub type EntryNumbers = ArrayVec<u64, 97>;

/// How many bits a speed has without those for some trains, and each of these.
const SPEED_BITS: usize = 28;

const DIFFERING_BITS: usize = 13;

/// Whether these are the items of a speed for some trains.
#[inline(always)]
pub(crate) fn is_differing(items: &[RowItem]) -> bool
    ensures { IsTrue result → layout items.now ≡ differing }
{
    match items {
        [
            RowItem::One(Var::Q_DIFF),
            RowItem::When(
                Guard {
                    var: Var::Q_DIFF,
                    test: Test::IsZero,
                },
                1,
            ),
            RowItem::One(Var::NC_CDDIFF),
            RowItem::When(
                Guard {
                    var: Var::Q_DIFF,
                    test: Test::IsOneOrTwo,
                },
                1,
            ),
            RowItem::One(Var::NC_DIFF),
            RowItem::One(Var::V_DIFF),
        ] => true,
        _ => false,
    }
}

/// Whether these are the items of a speed with those for some trains.
#[inline(always)]
pub(crate) fn is_speed(items: &[RowItem]) -> bool
    ensures { IsTrue result → layout items.now ≡ speed }
{
    match items {
        [
            RowItem::One(Var::D_STATIC),
            RowItem::One(Var::V_STATIC),
            RowItem::One(Var::Q_FRONT),
            RowItem::One(Var::N_ITER),
            RowItem::Many(6),
            group @ ..,
        ] => group.len() == 6 && is_differing(group),
        _ => false,
    }
}

/// Whether the variable of the category after Q_DIFF admits this number.
#[inline(always)]
fn admits_category(q_diff: u64, category: u64) -> bool
    ensures { result ≡ admits (category_of q_diff) category }
{
    if q_diff == 0 {
        Var::NC_CDDIFF.admits(category)
    } else {
        Var::NC_DIFF.admits(category)
    }
}

/// Takes a speed for some trains from this bit of a piece on, if its numbers are admitted.
#[inline(always)]
fn take_differing(piece: &[u8], at: usize, numbers: &mut EntryNumbers) -> bool
    requires inside { at + 13 ≤ length (bits piece.now) }
    requires room { array_vec_len numbers.old + 3 ≤ 97 }
    ensures len { IsTrue result → array_vec_len numbers.new ≡ array_vec_len numbers.old + 3 }
    ensures taken { IsTrue result → (f : List ℕ) × (numbers.new.items ≡ numbers.old.items ++ f) × ((n : ℕ) → ListIn differing n (bits piece.now) at 13 f) }
{
    let word = next_bits(piece, at);
    let q_diff = word >> 62;
    let category = (word >> 58) % 16;
    let v_diff = (word >> 51) % 128;
    if !Var::Q_DIFF.admits(q_diff) || !Var::V_DIFF.admits(v_diff) {
        return false;
    }
    if !admits_category(q_diff, category) {
        return false;
    }
    numbers.push(q_diff);
    numbers.push(category);
    numbers.push(v_diff);
    true
}

/// Takes a speed for some trains from this bit of a piece on, if the piece has it and its numbers are admitted, and returns
/// how many bits it has.
pub(crate) fn differing_at(piece: &[u8], at: usize, numbers: &mut EntryNumbers) -> Option<usize>
    requires inside { at ≤ length (bits piece.now) }
    requires small { length (bits piece.now) < 2 ^ 64 }
    requires none { numbers.old.items ≡ [] }
    ensures some { IfSome result (λ count. count ≡ 13) }
    ensures taken { IfSome result (λ count. (n : ℕ) → ListIn differing n (bits piece.now) at count numbers.new.items) }
{
    if piece.len() * 8 - at < DIFFERING_BITS {
        return None;
    }
    if take_differing(piece, at, numbers) {
        return Some(DIFFERING_BITS);
    }
    None
}

/// Takes a speed with those for some trains from this bit of a piece on, if the piece has them and their numbers are
/// admitted, and returns how many bits they have.
pub(crate) fn speed_at(piece: &[u8], at: usize, numbers: &mut EntryNumbers) -> Option<usize>
    requires inside { at ≤ length (bits piece.now) }
    requires small { length (bits piece.now) < 2 ^ 64 }
    requires none { numbers.old.items ≡ [] }
    ensures some { IfSome result (λ count. 0 < count) }
    ensures taken { IfSome result (λ count. (n : ℕ) → ListIn speed n (bits piece.now) at count numbers.new.items) }
{
    let room = piece.len() * 8 - at;
    if room < SPEED_BITS {
        return None;
    }
    let word = next_bits(piece, at);
    let d_static = word >> 49;
    let v_static = (word >> 42) % 128;
    let q_front = (word >> 41) % 2;
    let count = (word >> 36) % 32;
    if !Var::D_STATIC.admits(d_static) || !Var::V_STATIC.admits(v_static) {
        return None;
    }
    if !Var::Q_FRONT.admits(q_front) || !Var::N_ITER.admits(count) {
        return None;
    }
    let len = SPEED_BITS + DIFFERING_BITS * count as usize;
    if len > room {
        return None;
    }
    numbers.push(d_static);
    numbers.push(v_static);
    numbers.push(q_front);
    numbers.push(count);
    if take_all(piece, at + SPEED_BITS, count, numbers) {
        return Some(len);
    }
    None
}

/// Takes this many speeds for some trains from this bit of a piece on, if their numbers are admitted.
#[inline(always)]
fn take_all(piece: &[u8], at: usize, count: u64, numbers: &mut EntryNumbers) -> bool
    requires inside { at + 13 * count ≤ length (bits piece.now) }
    requires small { length (bits piece.now) < 2 ^ 64 }
    requires room { array_vec_len numbers.old + 3 * count ≤ 97 }
    ensures { IsTrue result → (f : List ℕ) × (numbers.new.items ≡ numbers.old.items ++ f) × ListIn (counted differing whole) count (bits piece.now) at (13 * count) f }
{
    for index in 0..count {
        let place = at + DIFFERING_BITS * index as usize;
        if !take_differing(piece, place, numbers) {
            return false;
        }
    }
    true
}
