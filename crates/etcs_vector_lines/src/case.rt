//! A line of data: its words are taken one after another, and what is answered is appended.
//!
//! No call here fails: what is wrong is noted, and reported at the end. So a line is answered by plain calls in turn.

ghost use Rattle.std.specs.Prelude.{◌≤◌, ◌<◌, ◌^◌};

use crate::names::variable;
use etcs_bits::{BitSlice, Bits};
use etcs_vars::{BuildFault, Var};
use hex::FromHexError;
use std::alloc::{AllocError, Global};

/// How many bits a list of a line may have.
pub const MOST_BITS: usize = 65536;

/// What is answered where memory, a number, a group or a length is refused: each with the variable after it, but the last
/// three.
pub type FaultTexts = [&'static str; 6];

/// A line: the words that are still to be taken, what was wrong with them, and the answer so far.
#[derive(Drop)]
pub struct Case<'a> {
    alloc: Global,
    words: &'a str,
    answer: Vec<u8>,
    is_bad: bool,
    is_starved: bool,
}

impl<'a> Case<'a> {
    /// A line of these words, which have one blank between them.
    pub fn new(alloc: Global, words: &'a str) -> Case<'a> {
        Case {
            alloc,
            words,
            answer: Vec::new(alloc),
            is_bad: false,
            is_starved: false,
        }
    }

    /// The answer.
    ///
    /// # Errors
    ///
    /// `AllocError` where memory was refused on the way.
    pub fn into_answer(mut self) -> Result<Vec<u8>, AllocError> {
        if self.is_bad || !self.words.is_empty() {
            self.answer.clear();
            self.say("bad words");
        }
        if self.answer.last() == Some(&b' ') || self.answer.last() == Some(&b'\n') {
            self.answer.pop();
        }
        if self.answer.is_empty() {
            self.say("none");
        }
        if self.is_starved {
            return Err(AllocError);
        }
        let Case { answer, .. } = self;
        Ok(answer)
    }

    /// Where its memory comes from.
    pub fn alloc(&self) -> Global {
        self.alloc
    }

    /// Notes that the words aren't those of a line of its kind.
    pub fn bad(&mut self) {
        self.is_bad = true;
    }

    /// Notes whether there was memory.
    pub fn kept(&mut self, is_kept: bool) {
        if !is_kept {
            self.is_starved = true;
        }
    }

    /// What was made where there was memory.
    pub fn got<T: Drop>(&mut self, made: Result<T, AllocError>) -> Option<T> {
        match made {
            Ok(made) => Some(made),
            Err(_) => {
                self.is_starved = true;
                None
            }
        }
    }

    /// Whether no word is left.
    pub fn is_empty(&self) -> bool {
        self.words.is_empty()
    }

    /// The next word; `-` is an empty one.
    pub fn word(&mut self) -> &'a str {
        let (word, left) = self.words.split_once(' ').unwrap_or((self.words, ""));
        self.words = left;
        if word == "-" { "" } else { word }
    }

    /// All words that are left.
    pub fn rest(&mut self) -> &'a str {
        let rest = self.words;
        self.words = "";
        rest
    }

    /// Leaves the words before a mark, or all where it isn't there, and returns those after it.
    pub fn split(&mut self, mark: &str) -> &'a str {
        let (words, beyond) = self.words.split_once(mark).unwrap_or((self.words, ""));
        self.words = words;
        beyond
    }

    /// Continues with other words, once all were taken.
    pub fn continue_with(&mut self, words: &'a str) {
        if !self.words.is_empty() {
            self.is_bad = true;
        }
        self.words = words;
    }

    /// Whether the next word is `-`, which is taken then.
    pub fn is_none(&mut self) -> bool {
        match self.words.strip_prefix('-') {
            Some(left) => {
                self.words = left.strip_prefix(' ').unwrap_or(left);
                true
            }
            None => false,
        }
    }

    /// The number of the next word.
    pub fn number(&mut self) -> u64 {
        let word = self.word();
        self.read(word)
    }

    /// The number of a word.
    pub fn read(&mut self, word: &str) -> u64 {
        match word.parse::<u64>() {
            Ok(number) => number,
            Err(_) => {
                self.is_bad = true;
                0
            }
        }
    }

    /// The next number, as a place or a length.
    pub fn place(&mut self) -> usize {
        self.number() as usize
    }

    /// A number up to `most`.
    pub fn up_to(&mut self, most: u64) -> u64
        ensures { result ≤ most }
    {
        let number = self.number();
        self.bounded(number, most)
    }

    fn bounded(&mut self, number: u64, most: u64) -> u64
        ensures { result ≤ most }
    {
        if number > most {
            self.is_bad = true;
            return 0;
        }
        number
    }

    /// A number of this many bits.
    pub fn bits_of(&mut self, width: usize) -> u64
        requires { width < 64 }
        ensures { result < 2 ^ width }
    {
        let number = self.number();
        if number >= 1 << width {
            self.is_bad = true;
            return 0;
        }
        number
    }

    /// A number of 8 bits.
    pub fn byte(&mut self) -> u8 {
        self.up_to(255) as u8
    }

    /// A number of 16 bits.
    pub fn half(&mut self) -> u16 {
        self.up_to(65535) as u16
    }

    /// `0` or `1`.
    pub fn flag(&mut self) -> bool {
        self.up_to(1) == 1
    }

    /// A number of a list as one of 8 bits.
    pub fn byte_of(&mut self, number: u64) -> u8 {
        self.bounded(number, 255) as u8
    }

    /// A number of a list as one of 16 bits.
    pub fn half_of(&mut self, number: u64) -> u16 {
        self.bounded(number, 65535) as u16
    }

    /// The next argument.
    pub fn next<A: Argument>(&mut self) -> A {
        A::next(self)
    }

    /// A variable's name.
    pub fn var(&mut self) -> Option<Var> {
        let var = variable(self.word());
        if var.is_none() {
            self.is_bad = true;
        }
        var
    }

    /// The numbers of all words that are left: `/` begins a run of them, which `N x` repeats.
    pub fn numbers(&mut self) -> Vec<u64> {
        let mut found = Vec::new(self.alloc);
        for run in self.rest().split('/') {
            let (count, body) = self.repeated(run);
            for _ in 0..count {
                self.push_numbers(&mut found, body);
            }
        }
        found
    }

    /// How often a run occurs, and the run.
    fn repeated<'b>(&mut self, run: &'b str) -> (u64, &'b str) {
        match run.split_once(" x ") {
            Some((count, body)) => (self.read(count.trim()).min(65535), body.trim()),
            None => (1, run.trim()),
        }
    }

    fn push_numbers(&mut self, found: &mut Vec<u64>, words: &str) {
        for word in words.split(' ') {
            if !word.is_empty() {
                let number = self.read(word);
                self.kept(found.push(number).is_ok());
            }
        }
    }

    /// The bits of all words that are left, with the same runs.
    pub fn bits(&mut self) -> Bits {
        let digits = self.rest();
        self.bits_between("", digits, "")
    }

    /// Bits with others before and after them.
    pub fn bits_between(&mut self, before: &str, digits: &str, after: &str) -> Bits {
        let mut found = Bits::new(self.alloc);
        self.push_digits(&mut found, before);
        for run in digits.split('/') {
            let (count, body) = self.repeated(run);
            for _ in 0..count {
                self.push_digits(&mut found, body);
            }
        }
        self.push_digits(&mut found, after);
        found
    }

    fn push_digits(&mut self, found: &mut Bits, digits: &str) {
        for digit in digits.as_bytes() {
            match digit {
                b'0' => self.push_bit(found, false),
                b'1' => self.push_bit(found, true),
                b' ' => {}
                _ => self.is_bad = true,
            }
        }
    }

    fn push_bit(&mut self, found: &mut Bits, bit: bool) {
        if found.len() > MOST_BITS {
            self.is_bad = true;
        } else {
            self.kept(found.push(bit).is_ok());
        }
    }

    /// The bytes of the next word.
    pub fn bytes(&mut self) -> Vec<u8> {
        let digits = self.word();
        self.bytes_of(digits)
    }

    /// The bytes of hexadecimal digits.
    pub fn bytes_of(&mut self, digits: &str) -> Vec<u8> {
        match hex::decode(self.alloc, digits) {
            Ok(found) => found,
            Err(fault) => {
                if fault == FromHexError::OutOfMemory {
                    self.is_starved = true;
                }
                self.is_bad = true;
                Vec::new(self.alloc)
            }
        }
    }

    /// Whether nothing was answered yet.
    pub fn is_silent(&self) -> bool {
        self.answer.is_empty()
    }

    /// Whether another line was answered alike so far.
    pub fn is_like(&self, other: &Case<'_>) -> bool {
        self.answer == other.answer && !other.is_bad
    }

    /// Whether these bytes are what was answered so far.
    pub fn has_said(&self, text: &[u8]) -> bool {
        self.answer.as_slice() == text
    }

    /// Answers a text.
    pub fn say(&mut self, text: &str) {
        self.say_bytes(text.as_bytes());
    }

    /// Answers bytes, as they are.
    pub fn say_bytes(&mut self, text: &[u8]) {
        let said = self.answer.extend_from_slice(text).is_ok();
        self.kept(said);
    }

    /// A text but for the LF at its end.
    pub fn say_line(&mut self, text: &[u8]) {
        self.say_bytes(text.strip_suffix(b"\n").unwrap_or(text));
    }

    /// A number, in decimal.
    pub fn say_number(&mut self, number: u64) {
        match number.to_string(self.alloc) {
            Ok(text) => self.say(text.as_str()),
            Err(_) => self.is_starved = true,
        }
    }

    /// A number and a blank.
    pub fn say_next(&mut self, number: u64) {
        self.say_number(number);
        self.say(" ");
    }

    /// A number, or `none`.
    pub fn say_found(&mut self, found: Option<u64>) {
        match found {
            Some(number) => self.say_number(number),
            None => self.say("none"),
        }
    }

    /// One of two texts.
    pub fn say_either(&mut self, holds: bool, text: &str, other: &str) {
        self.say(if holds { text } else { other });
    }

    /// `yes` or `no`.
    pub fn say_truth(&mut self, holds: bool) {
        self.say_either(holds, "yes", "no");
    }

    /// Bytes as hexadecimal digits.
    pub fn say_hex(&mut self, bytes: &[u8]) {
        match hex::encode_upper(self.alloc, bytes) {
            Ok(text) => self.say(text.as_str()),
            Err(_) => self.is_starved = true,
        }
    }

    /// Bits as digits 0 and 1.
    pub fn say_bits(&mut self, bits: &BitSlice<'_>) {
        for index in 0..bits.len() {
            self.say_either(bits.bit(index) == Some(true), "1", "0");
        }
    }

    /// A fault in these texts.
    pub fn say_fault(&mut self, fault: BuildFault, texts: &FaultTexts) {
        let [admitted, guard, many, count, long, fill] = *texts;
        match fault {
            BuildFault::NotAdmitted(var) => self.say_of(admitted, var),
            BuildFault::Guard(var) => self.say_of(guard, var),
            BuildFault::TooMany(var) => self.say_of(many, var),
            BuildFault::Count => self.say(count),
            BuildFault::TooLong => self.say(long),
            BuildFault::FillLength => self.say(fill),
            BuildFault::Memory => self.is_starved = true,
        }
    }

    /// A text with a variable's name after it.
    pub fn say_of(&mut self, text: &str, var: Var) {
        self.say(text);
        self.say(var.name());
    }

    /// If this doesn't hold, appends that to the answer.
    pub fn check(&mut self, holds: bool, text: &str) {
        if !holds {
            self.say("\nbut ");
            self.say(text);
        }
    }
}

/// What the next words give, by its type: a number of a width, `0` or `1`, several in turn, or `-` for none.
pub trait Argument: Sized {
    /// Takes as many words as it needs.
    fn next(case: &mut Case) -> Self;
}

impl Argument for u8 {
    fn next(case: &mut Case) -> u8 {
        case.byte()
    }
}

impl Argument for u16 {
    fn next(case: &mut Case) -> u16 {
        case.half()
    }
}

impl Argument for u32 {
    fn next(case: &mut Case) -> u32 {
        case.up_to(4294967295) as u32
    }
}

impl Argument for bool {
    fn next(case: &mut Case) -> bool {
        case.flag()
    }
}

impl<A: Argument> Argument for Option<A> {
    fn next(case: &mut Case) -> Option<A> {
        if case.is_none() {
            return None;
        }
        Some(case.next())
    }
}

impl<A: Argument, B: Argument> Argument for (A, B) {
    fn next(case: &mut Case) -> (A, B) {
        (case.next(), case.next())
    }
}

impl<A: Argument, B: Argument, C: Argument> Argument for (A, B, C) {
    fn next(case: &mut Case) -> (A, B, C) {
        (case.next(), case.next(), case.next())
    }
}

impl<A: Argument, B: Argument, C: Argument, D: Argument> Argument for (A, B, C, D) {
    fn next(case: &mut Case) -> (A, B, C, D) {
        (case.next(), case.next(), case.next(), case.next())
    }
}
