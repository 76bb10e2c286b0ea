//! Reads a log of short telegrams, one per line in hexadecimal digits: reports why a line isn't one, and at the end how many
//! telegrams, bad lines and links to other groups there were.

use etcs_codec::prelude::*;
use std::io::BufRead;

/// What was seen so far.
#[derive(Default, Drop)]
struct Counts {
    telegrams: u64,
    bad_lines: u64,
    links: u64,
}

impl Counts {
    /// Counts a telegram, and its packets 5. Nothing of it is copied.
    fn add(&mut self, telegram: &TelegramView<'_>) {
        self.telegrams = self.telegrams.saturating_add(1);
        for packet in telegram.packets() {
            if packet.nid() == 5 {
                self.links = self.links.saturating_add(1);
            }
        }
    }
}

pub fn run(rt: HostRuntime, input: impl BufRead + Drop) -> anyhow::Result<()> {
    let mut counts = Counts::default();
    let mut number: u64 = 0;
    for line in input.lines(rt.alloc()) {
        let line = line?;
        number = number.saturating_add(1);
        let mut bytes = [0; 27];
        if let Err(fault) = hex::decode_to_slice(line.as_str(), &mut bytes) {
            counts.bad_lines = counts.bad_lines.saturating_add(1);
            println!(rt; "line {number}: {fault}")?;
            continue;
        }
        match TelegramView::new(&bytes, Size::Short) {
            Ok(telegram) => counts.add(&telegram),
            Err(fault) => {
                counts.bad_lines = counts.bad_lines.saturating_add(1);
                println!(rt; "line {number}: {fault}")?;
            }
        }
    }
    println!(rt; "telegrams {}", counts.telegrams)?;
    println!(rt; "bad lines {}", counts.bad_lines)?;
    println!(rt; "packets 5 {}", counts.links)?;
    Ok(())
}
