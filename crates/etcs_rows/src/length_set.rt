//! Sets of lengths: numbers from 0 to 8,191, with a bit for each.

ghost use Rattle.std.specs.Prelude.{◌≡◌, ◌↔◌, ℕ, ◌+◌, ◌-◌, ◌*◌, ◌/◌, ◌%◌, ◌^◌, ◌<◌, ◌≤◌, ◌≢◌, IsTrue, ◌⊎◌, length, slice_index};
ghost use Rattle.std.specs.Int.{bit_at};
ghost use Rattle.std.specs.Int.RustNames.{bit_or};
ghost use Rattle.std.specs.Simd.Lanes.{zip2, chunk, put_chunk};
ghost use Rattle.etcs_rows.specs.Sets.{In, Has, Adds, TakesIn, AnyFlag, AnyHas, shifted_word};
ghost use Rattle.etcs_rows.specs.Sums.{Plus};

use crate::near::Near;
use std::simd::u64x4;

/// A set of numbers from 0 to 8,191, such as the lengths in bits that a part of a row may have.
///
/// Number n is bit n % 64 of word n / 64. A number above 8,191 is in no set: `shift`, `plus` and
/// `times` leave out the sums above it.
#[derive(Clone, Debug, PartialEq, Eq, Drop)]
pub struct LengthSet {
    words: [u64; 128],
}

impl LengthSet {
    ghost use Rattle.etcs_rows.specs.Sums.{SumOf};
    ghost use Rattle.etcs_rows.specs.Nearest.{IsLast, IsFirst, IsNear};

    /// The set with no number.
    pub(crate) fn empty() -> LengthSet
        ensures { (m : ℕ) → In result m → ⊥ }
    {
        LengthSet { words: [0; 128] }
    }

    /// The set that holds one number, which must be at most 8,191, and no other.
    pub fn single(number: usize) -> LengthSet
        requires { number ≤ 8191 }
        ensures { (m : ℕ) → In result m ↔ (m ≡ number) }
    {
        let mut words = [0u64; 128];
        words[number / 64] = 1 << (number % 64);
        LengthSet { words }
    }

    /// Whether the set holds a number. It holds none above 8,191.
    pub fn holds(&self, number: usize) -> bool
        ensures { IsTrue result ↔ In self.now number }
    {
        number < 8192 && (self.words[number / 64] >> (number % 64)) & 1 == 1
    }

    /// The union: the numbers that the one or the other set holds.
    pub fn join(&self, other: &LengthSet) -> LengthSet
        ensures { (m : ℕ) → In result m ↔ (In self.now m ⊎ In other.now m) }
    {
        LengthSet {
            words: joined(&self.words, &other.words),
        }
    }

    /// The numbers of the set, each with `by` more, which must be at most 8,191. What would be above 8,191 is left out.
    pub fn shift(&self, by: usize) -> LengthSet
        requires { by ≤ 8191 }
        ensures { (m : ℕ) → In result m ↔ ((k : ℕ) × In self.now k × (k + by ≡ m) × (m ≤ 8191)) }
    {
        let mut words = [0u64; 128];
        add_shifted(&mut words, &self.words, by);
        LengthSet { words }
    }

    /// The sums of a number of the one set and a number of the other. What would be above 8,191 is left out.
    pub fn plus(&self, other: &LengthSet) -> LengthSet
        ensures { (m : ℕ) → In result m ↔ (Plus (In self.now) (In other.now) m × (m ≤ 8191)) }
    {
        let words = if count_of(&self.words) <= count_of(&other.words) {
            sums_of(&self.words, &other.words)
        } else {
            sums_of(&other.words, &self.words)
        };
        LengthSet { words }
    }

    /// The sums of `count` numbers of the set, each of which may be taken more than once. What would be above
    /// 8,191 is left out. No numbers add up to 0, so `times(0)` holds 0 alone, for the empty set too.
    pub fn times(&self, count: u64) -> LengthSet
        ensures { (m : ℕ) → In result m ↔ (SumOf count (In self.now) m × (m ≤ 8191)) }
    {
        let mut sums = LengthSet::single(0);
        let mut power = LengthSet { words: self.words };
        let mut left = count;
        while left > 1 {
            if left % 2 == 1 {
                sums = sums.plus(&power);
            }
            power = power.plus(&power);
            left /= 2;
        }
        if left == 1 { sums.plus(&power) } else { sums }
    }

    /// Whether the set holds a number from `low` to `high`, both included. False if `high` is below `low`.
    pub fn any_in(&self, low: usize, high: usize) -> bool
        ensures { IsTrue result ↔ ((m : ℕ) × In self.now m × (low ≤ m) × (m ≤ high)) }
    {
        let high = high.min(8191);
        low <= high && any_between(&self.words, low, high)
    }

    /// Those next to a number of at most 8,191.
    pub(crate) fn around(&self, number: usize) -> Near
        requires { number ≤ 8191 }
        ensures { IsNear (In self.now) number result }
    {
        Near {
            below: self.last_to(number),
            above: self.first_from(number),
        }
    }

    /// The greatest that isn't above a number.
    fn last_to(&self, number: usize) -> Option<usize>
        requires { number ≤ 8191 }
        ensures { IsLast (λ m. In self.now m × (m ≤ number)) result }
    {
        let mut end = number.saturating_add(1);
        while end > 0 {
            end -= 1;
            if self.holds(end) {
                return Some(end);
            }
        }
        None
    }

    /// The least that isn't below a number.
    fn first_from(&self, number: usize) -> Option<usize>
        ensures { IsFirst (λ m. In self.now m × (number ≤ m)) result }
    {
        for n in number..8192usize {
            if self.holds(n) {
                return Some(n);
            }
        }
        None
    }
}

/// Joins four words with four others, shifted up, each over the top bits of the word before it.
fn add_lanes(sums: &mut [u64], at: usize, words: &[u64], before: usize, bits: u64)
    requires sums { at + 4 ≤ length sums.old }
    requires words { before + 5 ≤ length words.now }
    requires bits { bits < 64 }
    ensures { sums.new ≡ put_chunk at sums.old (zip2 bit_or (chunk at 4 sums.old) (zip2 (shifted_word bits) (chunk (before + 1) 4 words.now) (chunk before 4 words.now))) }
{
    let word = u64x4::from_slice(&words[before + 1..]) << u64x4::splat(bits);
    let half = u64x4::from_slice(&words[before..]) >> u64x4::splat(1);
    let under = half >> u64x4::splat(63 - bits);
    let sum = u64x4::from_slice(&sums[at..]) | (word | under);
    sum.copy_to_slice(&mut sums[at..]);
}

/// Takes in the numbers of the other words with `by` more, in this many blocks of four words from `at` on.
fn add_blocks(sums: &mut [u64; 128], words: &[u64; 128], by: usize, at: usize, blocks: usize)
    requires under { by / 64 < at }
    requires room { at + blocks * 4 ≤ 128 }
    ensures { TakesIn by words.now at (at + blocks * 4) sums.old sums.new }
{
    for block in 0..blocks {
        let place = at + block * 4;
        let before = place - by / 64 - 1;
        add_lanes(sums, place, words, before, (by % 64) as u64);
    }
}

/// The same, word by word, from `at` to the last word.
fn add_rest(sums: &mut [u64; 128], words: &[u64; 128], by: usize, at: usize)
    requires under { by / 64 < at }
    requires room { at ≤ 128 }
    ensures { TakesIn by words.now at 128 sums.old sums.new }
{
    for i in at..128usize {
        let before = i - by / 64 - 1;
        sums[i] |= words[before + 1] << (by % 64) | words[before] >> 1 >> (63 - by % 64);
    }
}

/// Takes in the numbers of the other words with `by` more. What would be above 8,191 is left out.
fn add_shifted(sums: &mut [u64; 128], words: &[u64; 128], by: usize)
    requires { by ≤ 8191 }
    ensures { Adds (λ j. j ≡ by) words.now sums.old sums.new }
{
    let first = by / 64;
    sums[first] |= words[0] << (by % 64);
    let blocks = (127 - first) / 4;
    add_blocks(sums, words, by, first + 1, blocks);
    add_rest(sums, words, by, first + 1 + blocks * 4);
}

/// Takes in the sums of a number of the other words and one of `word`, whose bit 0 is the number `base`.
fn add_each(sums: &mut [u64; 128], words: &[u64; 128], word: u64, base: usize)
    requires { base + 63 ≤ 8191 }
    ensures { Adds (λ j. (i : ℕ) × (bit_at word i ≡ 1) × (base + i ≡ j)) words.now sums.old sums.new }
{
    let mut left = word;
    while left != 0 {
        add_shifted(sums, words, base + left.trailing_zeros() as usize);
        left &= left - 1;
    }
}

/// The sums up to 8,191 of a number of each, by a pass over `many` for each number of `few`.
fn sums_of(few: &[u64; 128], many: &[u64; 128]) -> [u64; 128]
    ensures { (m : ℕ) → Has result m ↔ (Plus (Has few.now) (Has many.now) m × (m ≤ 8191)) }
{
    let mut sums = [0u64; 128];
    for i in 0..128usize {
        add_each(&mut sums, many, few[i], i * 64);
    }
    sums
}

/// How many numbers the words hold, which only decides what `plus` walks over.
fn count_of(words: &[u64; 128]) -> u32 {
    let mut count = 0;
    for word in words {
        count += word.count_ones();
    }
    count
}

/// Four words of the one or the other.
fn join_lanes(a: &[u64], b: &[u64], at: usize, out: &mut [u64])
    requires a { at + 4 ≤ length a.now }
    requires b { at + 4 ≤ length b.now }
    requires out { at + 4 ≤ length out.old }
    ensures { out.new ≡ put_chunk at out.old (zip2 bit_or (chunk at 4 a.now) (chunk at 4 b.now)) }
{
    let x = u64x4::from_slice(&a[at..]);
    let y = u64x4::from_slice(&b[at..]);
    (x | y).copy_to_slice(&mut out[at..]);
}

/// The words of the one or the other.
fn joined(a: &[u64; 128], b: &[u64; 128]) -> [u64; 128]
    ensures { result ≡ zip2 bit_or a.now b.now }
{
    let mut out = [0u64; 128];
    for block in 0..32usize {
        join_lanes(a, b, block * 4, &mut out);
    }
    out
}

/// Whether a word has a bit from low to high.
fn has_bit(word: u64, low: usize, high: usize) -> bool
    requires order { low ≤ high }
    requires bound { high < 64 }
    ensures { IsTrue result ↔ AnyFlag word low high }
{
    word >> low << (63 - (high - low)) != 0
}

/// Whether one of the words has a bit.
fn any_bit(words: &[u64]) -> bool
    ensures { IsTrue result ↔ ((i : ℕ) × (i < length words.now) × (slice_index words.now i ≢ 0)) }
{
    words.iter().any(|word| *word != 0)
}

/// Whether the words hold a number from low to high.
fn any_between(words: &[u64; 128], low: usize, high: usize) -> bool
    requires order { low ≤ high }
    requires bound { high ≤ 8191 }
    ensures { IsTrue result ↔ AnyHas words.now low high }
{
    let (first, last) = (low / 64, high / 64);
    if first == last {
        return has_bit(words[first], low % 64, high % 64);
    }
    has_bit(words[first], low % 64, 63)
        || has_bit(words[last], 0, high % 64)
        || any_bit(&words[first + 1..last])
}
