//! Packets: their numbers, from numbers and from bits, and their copies; the message of a group, and groups.

use crate::each::{Makes, refuse_each};
use etcs_group::{Assembly, GroupFault, Groups};
use etcs_packets::Packet;
use etcs_packets::inner::AnyPacket;
use etcs_telegram::{Size, Telegram};
use etcs_text::Entry;
use etcs_vector_items::{item_of, next_kind, size_of, viewed};
use etcs_vector_lines::Case;
use etcs_vector_packets::own_fields;
use std::alloc::{AllocError, Global};

/// The lists of numbers of packets, after three others.
#[derive(Drop)]
pub(crate) struct Fields<'a> {
    pub(crate) packets: &'a [Packet],
}

/// A list of three numbers.
fn three(alloc: Global) -> Result<Vec<u64>, AllocError> {
    let mut out = Vec::with_capacity(alloc, 3)?;
    out.extend_from_slice(&[7, 8, 9])?;
    Ok(out)
}

impl Makes for Fields<'_> {
    type Made = Vec<u64>;

    fn count(&self) -> usize {
        self.packets.len()
    }

    fn make(&self, alloc: Global, index: usize) -> Result<Vec<u64>, bool> {
        let (Some(packet), Ok(mut out)) = (self.packets.get(index), three(alloc)) else {
            return Err(true);
        };
        if own_fields(packet, &mut out).is_ok() {
            return Ok(out);
        }
        Err(out.as_slice() == [7, 8, 9].as_slice())
    }
}

/// The number, the direction and the numbers of a packet.
#[derive(Drop)]
pub(crate) struct Listed {
    pub(crate) nid: u8,
    dir: u8,
    pub(crate) numbers: Vec<u64>,
}

/// The numbers of packets.
pub(crate) fn numbers_of(case: &mut Case, packets: &[Packet]) -> Vec<Listed> {
    let mut all = Vec::new(case.alloc());
    for packet in packets {
        let mut numbers = Vec::new(case.alloc());
        case.kept(own_fields(packet, &mut numbers).is_ok());
        let (nid, dir) = (packet.nid(), packet.dir().unwrap_or(3));
        case.kept(all.push(Listed { nid, dir, numbers }).is_ok());
    }
    all
}

/// Packets of numbers.
#[derive(Drop)]
pub(crate) struct FromFields<'a> {
    pub(crate) rows: &'a [Listed],
}

impl Makes for FromFields<'_> {
    type Made = Option<Packet>;

    fn count(&self) -> usize {
        self.rows.len()
    }

    fn make(&self, alloc: Global, index: usize) -> Result<Option<Packet>, bool> {
        match self.rows.get(index) {
            Some(row) => {
                Packet::of_fields(alloc, row.nid, row.dir, row.numbers.as_slice()).or(Err(true))
            }
            None => Ok(None),
        }
    }
}

/// The line of the group of a telegram.
#[derive(Drop)]
pub(crate) struct GroupLine<'a> {
    pub(crate) telegram: &'a Telegram,
}

impl Makes for GroupLine<'_> {
    type Made = Vec<u8>;

    fn make(&self, alloc: Global, _index: usize) -> Result<Vec<u8>, bool> {
        let mut groups = Groups::new(alloc);
        let (Ok(mut out), Ok(telegram)) = (
            Vec::with_capacity(alloc, 8),
            self.telegram.try_clone(alloc),
        ) else {
            return Err(true);
        };
        if groups.add(telegram).is_err() {
            return Err(groups.write(&mut out).is_ok() && out.is_empty());
        }
        if groups.write(&mut out).is_ok() {
            return Ok(out);
        }
        Err(out.is_empty())
    }
}

/// Copies of packets.
#[derive(Drop)]
pub(crate) struct Clones<'a, P: Drop> {
    pub(crate) packets: &'a [P],
}

impl<P: AnyPacket + PartialEq> Makes for Clones<'_, P> {
    type Made = Option<P>;

    fn count(&self) -> usize {
        self.packets.len()
    }

    fn make(&self, alloc: Global, index: usize) -> Result<Option<P>, bool> {
        match self.packets.get(index) {
            Some(packet) => match packet.try_clone(alloc) {
                Ok(copy) => Ok(Some(copy)),
                Err(_) => Err(true),
            },
            None => Ok(None),
        }
    }
}

/// Packets of a view, of which there are this many.
#[derive(Drop)]
struct Seen<'a> {
    bytes: &'a [u8],
    size: Size,
    packets: usize,
}

impl Makes for Seen<'_> {
    type Made = Option<Packet>;

    fn count(&self) -> usize {
        self.packets
    }

    fn make(&self, alloc: Global, index: usize) -> Result<Option<Packet>, bool> {
        viewed(alloc, self.size, self.bytes, index)
    }
}

/// `to_packet KIND HEX`: the packets of a view.
pub(crate) fn refuse_view(case: &mut Case) {
    let kind = next_kind(case);
    let held = case.bytes();
    let bytes = held.as_slice();
    let item = item_of(case, kind, bytes);
    match (size_of(kind), item.as_ref()) {
        (Some(size), Some(Entry::Telegram(telegram))) => {
            let packets = telegram.packets().len();
            refuse_each(
                case,
                Seen {
                    bytes,
                    size,
                    packets,
                },
            );
        }
        _ => case.bad(),
    }
}

/// The message of a group.
#[derive(Drop)]
struct Messages<'a> {
    assembly: &'a Assembly,
}

impl Makes for Messages<'_> {
    type Made = Vec<Packet>;

    fn make(&self, alloc: Global, _index: usize) -> Result<Vec<Packet>, bool> {
        match self.assembly.message(alloc) {
            Ok(packets) => Ok(packets),
            Err(fault) => Err(fault == GroupFault::Memory),
        }
    }
}

/// `message KIND HEX ..`: the message of the group of these telegrams.
pub(crate) fn refuse_message(case: &mut Case) {
    let mut assembly = Assembly::new();
    let kind = next_kind(case);
    for _ in 0..8u8 {
        if !case.is_empty() {
            let bytes = case.bytes();
            let item = item_of(case, kind, bytes.as_slice());
            add(case, &mut assembly, item);
        }
    }
    let assembly = &assembly;
    refuse_each(case, Messages { assembly });
}

/// Adds a telegram.
fn add(case: &mut Case, assembly: &mut Assembly, item: Option<Entry>) {
    match item {
        Some(Entry::Telegram(telegram)) => case.kept(assembly.add(telegram).is_ok()),
        _ => case.bad(),
    }
}
