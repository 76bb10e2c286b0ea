//! Plays messages to the train again: reads one per line in hexadecimal digits, and writes it in the same form with another
//! time. No message is taken apart: its variables are changed as pairs.

use etcs_codec::End;
use etcs_codec::prelude::*;
use std::alloc::{AllocError, Global};
use std::io::BufRead;

/// 1 s, in steps of 10 ms.
const TIME: u64 = 100;

/// The bytes of the message that these begin with, at another time; none if they begin with no message, or if no message has
/// that time.
fn stamped(alloc: Global, bytes: &[u8], t_train: u64) -> Result<Option<Vec<u8>>, AllocError> {
    let mut read = read_pairs(alloc, Kind::Radio, bytes)?;
    if read.end != End::Whole {
        return Ok(None);
    }
    if let Some((Var::T_TRAIN, number)) = read.fields.get_mut(2) {
        *number = t_train;
    }
    let mut out = Vec::new(alloc);
    let is_written = write_pairs(alloc, Kind::Radio, read.fields.as_slice(), &mut out)?;
    Ok(is_written.then_some(out))
}

pub fn run(rt: HostRuntime, input: impl BufRead + Drop) -> anyhow::Result<()> {
    let alloc = rt.alloc();
    for line in input.lines(alloc) {
        let bytes = hex::decode(alloc, line?.as_str())?;
        match stamped(alloc, bytes.as_slice(), TIME)? {
            Some(later) => println!(rt; "{}", hex::encode_upper(alloc, later.as_slice())?)?,
            None => println!(rt; "no message")?,
        }
    }
    Ok(())
}
