//! Programs a balise: reads a short telegram in hexadecimal digits, limits the speed of its temporary restrictions to
//! 40 km/h, and writes it in the same form.

use etcs_codec::prelude::*;
use std::alloc::Global;
use std::io::{BufRead, Write};

/// 40 km/h, in steps of 5.
const LIMIT: u64 = 8;

/// The packet with V_TSR lowered to LIMIT, if it is a temporary speed restriction above that; any other as it is.
fn limited(packet: Packet) -> Result<Packet, BuildFault> {
    let Packet::Tsr(restriction) = &packet else {
        return Ok(packet);
    };
    match restriction.numbers() {
        [q_scale, nid_tsr, d_tsr, l_tsr, q_front, v_tsr] => {
            let v_tsr = LIMIT.min(*v_tsr);
            let numbers = [*q_scale, *nid_tsr, *d_tsr, *l_tsr, *q_front, v_tsr];
            Ok(Packet::Tsr(Flat::new(restriction.dir(), &numbers)?))
        }
        _ => Ok(packet),
    }
}

/// The telegram with all its packets limited, and the same FILL.
fn edited(alloc: Global, telegram: Telegram) -> anyhow::Result<Telegram> {
    let (size, header, packets, fill) = telegram.into_parts();
    let mut edited = Vec::new(alloc);
    for packet in packets {
        edited.push(limited(packet)?)?;
    }
    match Telegram::with_fill(size, header, edited, fill) {
        Ok(telegram) => Ok(telegram),
        Err((fault, _packets, _fill)) => Err(fault)?,
    }
}

/// The telegram of a line of digits.
fn read(alloc: Global, line: &str) -> anyhow::Result<Option<Telegram>> {
    let mut bytes = [0; 27];
    hex::decode_to_slice(line, &mut bytes)?;
    let mut reader = TelegramReader::new(alloc, Size::Short);
    reader.feed(&bytes)?;
    Ok(reader.take().ok())
}

pub fn run(rt: HostRuntime, input: impl BufRead + Drop) -> anyhow::Result<()> {
    let alloc = rt.alloc();
    let mut digits = Vec::new(alloc);
    for line in input.lines(alloc) {
        if let Some(telegram) = read(alloc, line?.as_str())? {
            hex_line(&Entry::Telegram(edited(alloc, telegram)?), &mut digits)?;
        }
    }
    rt.stdout().write_all(digits.as_slice())?;
    Ok(())
}
