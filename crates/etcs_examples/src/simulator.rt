//! Simulates two balises and a radio block centre: builds their telegrams and a message, sends them byte by byte, puts the
//! group of balises together, and shows what was received.

use etcs_codec::prelude::*;
use std::alloc::Global;
use std::io::Write;

/// The telegram of one of the two balises of group 511 of country 98: the next group is number 512, 1,180 m ahead.
fn telegram(alloc: Global, n_pig: u8) -> anyhow::Result<Telegram> {
    let header = Header::new(33, n_pig, 1, 0, 255, 98, 511, true)?;
    let link = Link::new(1180, None, 512, false, 2, 12)?;
    let mut packets = Vec::new(alloc);
    match Linking::new(1, 1, link, Vec::new(alloc)) {
        Ok(linking) => packets.push(Packet::Linking(linking))?,
        Err((fault, _further)) => Err(fault)?,
    }
    match Telegram::new(alloc, Size::Short, header, packets) {
        Ok(telegram) => Ok(telegram),
        Err((fault, _packets)) => Err(fault)?,
    }
}

/// The telegram that is received; none where the bytes end inside it.
fn receive_telegram(alloc: Global, bytes: &[u8]) -> Result<Option<Telegram>, ReadFault> {
    let mut reader = TelegramReader::new(alloc, Size::Short);
    for byte in bytes {
        if let Fed::Done { .. } = reader.feed(&[*byte])? {
            return Ok(reader.take().ok());
        }
    }
    Ok(None)
}

/// The group of a train that passes its balises in the order 1, 0.
fn receive_group(alloc: Global) -> anyhow::Result<Assembly> {
    let mut group = Assembly::new();
    for n_pig in [1, 0] {
        let mut sent = [0; 27];
        telegram(alloc, n_pig)?.encode_into(&mut sent)?;
        if let Some(telegram) = receive_telegram(alloc, &sent)? {
            match group.add(telegram) {
                Ok(Added::New | Added::Repeat) => {}
                Err((clash, _telegram)) => Err(clash)?,
            }
        }
    }
    Ok(group)
}

/// Message 24 of the radio block centre, which stops a train in staff responsible mode: packet 137 with Q_SRSTOP 1.
fn message(alloc: Global) -> anyhow::Result<Message> {
    let head = RadioHead {
        t_train: 100,
        m_ack: false,
        nid_lrbg: 98 << 14 | 511,
    };
    let mut packets = Vec::new(alloc);
    packets.push(Packet::StopInSr(Flat::new(1, &[1])?))?;
    match Message::new(head, Body::Plain { nid: 24 }, packets) {
        Ok(message) => Ok(message),
        Err((fault, _packets)) => Err(fault)?,
    }
}

/// The message that is received; none where the bytes end inside it.
fn receive_message(alloc: Global, bytes: &[u8]) -> Result<Option<Message>, ReadFault> {
    let mut reader = MessageReader::new(alloc);
    for byte in bytes {
        if let Fed::Done { .. } = reader.feed(&[*byte])? {
            return Ok(reader.take().ok());
        }
    }
    Ok(None)
}

pub fn run(rt: HostRuntime) -> anyhow::Result<()> {
    let alloc = rt.alloc();
    let mut text = Vec::new(alloc);
    let group = receive_group(alloc)?;
    if let Some(telegram) = group.telegram(0) {
        show_lines(&Entry::Telegram(telegram.try_clone(alloc)?), 1, &mut text)?;
    }
    let mut sent = Vec::new(alloc);
    message(alloc)?.encode(&mut sent)?;
    if let Some(message) = receive_message(alloc, sent.as_slice())? {
        show_lines(&Entry::Message(message), 2, &mut text)?;
    }
    rt.stdout().write_all(text.as_slice())?;
    println!(rt; "the group is whole: {}", group.is_complete())?;
    Ok(())
}
