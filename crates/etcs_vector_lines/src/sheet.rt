//! The lines of vectors, and what is written of them.

use crate::case::Case;
use std::alloc::{AllocError, Global};

/// The kinds of lines that a sheet may have.
pub trait Kinds {
    /// Answers a line of this kind: whether there is such a kind.
    fn answer(case: &mut Case, kind: &str) -> bool;
}

/// How many vectors of a kind there are.
#[derive(Drop)]
struct Count<'a> {
    kind: &'a str,
    vectors: u64,
}

/// The vectors so far; the last one, whose head is empty where there is none; and what was written.
#[derive(Drop)]
pub struct Sheet<'a> {
    alloc: Global,
    line: u64,
    first_line: u64,
    head: &'a str,
    expected: Vec<u8>,
    counts: Vec<Count<'a>>,
    vectors: u64,
    wrong: u64,
    report: Case<'a>,
}

impl<'a> Sheet<'a> {
    /// Checks each vector of a text: the report, and whether all are right.
    pub fn check<K: Kinds>(alloc: Global, text: &'a str) -> Result<(Vec<u8>, bool), AllocError> {
        let mut sheet = Sheet {
            alloc,
            line: 0,
            first_line: 0,
            head: "",
            expected: Vec::new(alloc),
            counts: Vec::new(alloc),
            vectors: 0,
            wrong: 0,
            report: Case::new(alloc, ""),
        };
        for line in text.split('\n') {
            sheet.take::<K>(line);
        }
        sheet.judge::<K>();
        sheet.say_counts();
        let Sheet { report, wrong, .. } = sheet;
        Ok((report.into_answer()?, wrong == 0))
    }

    /// Takes the next line.
    fn take<K: Kinds>(&mut self, line: &'a str) {
        self.line = self.line.saturating_add(1);
        match line.strip_prefix(' ') {
            Some(more) if self.head.is_empty() => self.say_wrong(more, b"after no vector"),
            Some(more) => self.expect(more),
            None => {
                self.judge::<K>();
                self.begin(line);
            }
        }
    }

    /// Begins the vector of a line.
    fn begin(&mut self, line: &'a str) {
        self.head = "";
        self.expected.clear();
        self.first_line = self.line;
        if line.is_empty() || line.starts_with('#') {
            return;
        }
        match line.split_once(" =") {
            Some((head, rest)) => {
                self.head = head;
                self.expect(rest.strip_prefix(' ').unwrap_or(rest));
            }
            None => self.say_wrong(line, b"no vector"),
        }
    }

    /// Continues what is expected.
    fn expect(&mut self, more: &str) {
        if !self.expected.is_empty() {
            self.report.kept(self.expected.push(b'\n').is_ok());
        }
        let kept = self.expected.extend_from_slice(more.as_bytes()).is_ok();
        self.report.kept(kept);
    }

    /// Asks what the vector asks, and compares.
    fn judge<K: Kinds>(&mut self) {
        let head = self.head;
        if head.is_empty() {
            return;
        }
        let (kind, words) = head.split_once(' ').unwrap_or((head, ""));
        let mut case = Case::new(self.alloc, words);
        if !K::answer(&mut case, kind) {
            case.say("no such kind");
        }
        self.count(kind);
        match case.into_answer() {
            Ok(answer) => {
                if answer != self.expected {
                    self.say_wrong(head, answer.as_slice());
                }
            }
            Err(_) => self.report.kept(false),
        }
    }

    /// Counts a vector of this kind.
    fn count(&mut self, kind: &'a str) {
        self.vectors = self.vectors.saturating_add(1);
        for count in self.counts.iter_mut() {
            if count.kind == kind {
                count.vectors = count.vectors.saturating_add(1);
                return;
            }
        }
        let counted = self.counts.push(Count { kind, vectors: 1 }).is_ok();
        self.report.kept(counted);
    }

    /// Writes that a vector isn't as it should be, and what there is in its place.
    fn say_wrong(&mut self, head: &str, found: &[u8]) {
        self.wrong = self.wrong.saturating_add(1);
        self.report.say("line ");
        self.report.say_number(self.first_line);
        self.report.say(": ");
        self.report.say(head);
        self.report.say(" =\n");
        self.report.say_bytes(found);
        self.report.say("\n");
    }

    /// Writes how many there were of each kind, and of all.
    fn say_counts(&mut self) {
        for count in self.counts.as_slice() {
            self.report.say(count.kind);
            self.report.say(" ");
            self.report.say_number(count.vectors);
            self.report.say("\n");
        }
        self.report.say_number(self.vectors);
        self.report.say(" vectors, ");
        self.report.say_number(self.wrong);
        self.report.say(" wrong\n\n");
    }
}
