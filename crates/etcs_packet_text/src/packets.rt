//! The text of packets.

ghost use Rattle.std.specs.Prelude.{◌≡◌, ◌++◌, ◌∷◌, [], OnErr, OnOk, flat_map, map};
ghost use Rattle.etcs_vars.specs.declared.var.Var.TheVariants.{L_PACKET};
ghost use Rattle.etcs_tables.specs.Frames.{directed};
ghost use Rattle.etcs_packet_text.specs.Show.{variable_line};
ghost use Rattle.etcs_packet_text.specs.Fronts.{Begins};
ghost use Rattle.etcs_packet_text.specs.Packets.{packet_line, packets_text};

use crate::packet_page::{self, PacketPage, Place};
use crate::page::Page;
use etcs_bits::BitSlice;
use etcs_packets::inner::AnyPacket;
use etcs_tables::{Way, frame_bits};
use etcs_vars::Var;
use std::alloc::AllocError;

impl PacketPage for Page {
    ghost use Rattle.std.specs.Prelude.{◌≡◌, ◌++◌, length};
    ghost use Rattle.etcs_packet_text.specs.LineSinks.{and_lines, begun_lines};
    ghost use Rattle.etcs_packet_text.specs.laws.LineSinks.{lines_sent, lines_typed, lines_marker};

    ghost text = { λ page. page };

    ghost ends = { λ page place. place.len ≡ length page };

    ghost and_packet = { and_lines };

    ghost begun = { begun_lines };

    ghost ended = { λ nid page. page };

    #[inline(always)]
    fn take(&mut self) -> Page {
        self.take_all()
    }

    #[inline(always)]
    fn place(&self) -> Place {
        Place {
            len: self.len(),
            later: false,
        }
    }

    #[inline(always)]
    fn back(&mut self, place: Place) {
        self.cut(place.len);
    }

    #[inline(always)]
    fn begin(&mut self, way: Way, nid: u8, dir: Option<u8>, bits: usize) -> Result<(), AllocError> {
        match dir {
            Some(dir) => self.put_frame(way, nid, dir, bits as u64),
            None => self.put_between(b"packet ", u64::from(nid), b"\n"),
        }
    }

    #[inline(always)]
    fn end(&mut self, _nid: u8) -> Result<(), AllocError> {
        Ok(())
    }

    fn keep(&mut self, way: Way, nid: u8, dir: u8, body: &BitSlice<'_>) -> Result<(), AllocError> {
        let bits = frame_bits(way).checked_add(body.len()).ok_or(AllocError)?;
        self.put_frame(way, nid, dir, bits as u64)?;
        self.put_bits_line(Var::OTHER_DATA, body)
    }

    ghost ends_len = { λ page place is. is };

    ghost ends_one = { λ page other place is same text. text };

    ghost sent_begins = { lines_sent };

    ghost failed_begins = { λ page other h. h };

    ghost typed_is = { lines_typed };

    ghost marker_is = { lines_marker };
}

/// Appends the texts of packets of either way, one after another: of each a line `packet` with its number, and a line for
/// each variable after it in the order of sending (SUBSET-026, 7.4); to the track there is no Q_DIR. The bits of a packet
/// that is kept as bits are one line, OTHER_DATA, with their count. Each line ends with a LF.
///
/// # Errors
///
/// `AllocError` if out of memory. The page then begins with what was there; what else it has isn't promised.
pub fn write_packets<P: AnyPacket>(packets: &[P], page: &mut Page) -> Result<(), AllocError>
    ensures ok { OnOk result (page.new ≡ page.old ++ packets_text P.WAY (map (λ p. (P.form p).value) packets.now)) }
    ensures err { OnErr result (Begins page.old page.new) }
{
    packet_page::write_packets(packets, page)?;
    Ok(())
}
