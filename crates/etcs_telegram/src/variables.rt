//! The variables of headers and of telegrams with their numbers, sent in order (SUBSET-026, 7 and 8).

ghost use Rattle.std.specs.Prelude.{◌≡◌, ◌≤◌, IfOk, OnErr, OnOk, length, map};
ghost use Rattle.etcs_vars.specs.Reading.{spelled};
ghost use Rattle.etcs_tables.specs.Headers.{header_row};
ghost use Rattle.etcs_reader.specs.Rests.{Goes};
ghost use Rattle.etcs_packets.specs.PacketValues.{packet_value};
ghost use Rattle.etcs_sequence.specs.Labels.{labelled};
ghost use Rattle.etcs_telegram.specs.Lefts.{HoldsIn, Left};
ghost use Rattle.etcs_telegram.specs.Phases.{beyond_header};
ghost use Rattle.etcs_telegram.specs.Readers.{so_far, store_holds};
ghost use Rattle.etcs_telegram.specs.Telegrams.{closed_reading};

use crate::header::Header;
use crate::header_bits::HEADER_BITS;
use crate::phase::{Phase, header_var};
use crate::rest::TelegramRest;
use crate::store::TelegramStore;
use crate::telegram::Telegram;
use etcs_bits::BitSlice;
use etcs_packets::Packet;
use etcs_packets::inner::send_all;
use etcs_tables::CLOSING;
use etcs_vars::inner::{VarSink, Variables, send_bits};
use etcs_vars::{Var, pairs_of};
use std::alloc::{AllocError, Global};

impl Variables for Header {
    ghost use Rattle.etcs_telegram.specs.Telegrams.{header_reading};

    ghost reading_of = { header_reading };

    fn bits(&self) -> usize {
        HEADER_BITS
    }

    fn send<S: VarSink>(&self, out: &mut S) -> Result<(), AllocError> {
        out.send(&[
            (Var::Q_UPDOWN, 1),
            (Var::M_VERSION_HEADER, u64::from(self.m_version())),
            (Var::Q_MEDIA, 0),
            (Var::N_PIG, u64::from(self.n_pig())),
            (Var::N_TOTAL, u64::from(self.n_total())),
        ])?;
        out.send(&[
            (Var::M_DUP, u64::from(self.m_dup())),
            (Var::M_MCOUNT, u64::from(self.m_mcount())),
            (Var::NID_C, u64::from(self.nid_c())),
            (Var::NID_BG, u64::from(self.nid_bg())),
            (Var::Q_LINK, u64::from(self.q_link())),
        ])
    }
}

impl Header {
    ghost use Rattle.etcs_telegram.specs.Telegrams.{header_reading};

    /// The header's ten variables with their numbers, in the order of sending (SUBSET-026, 8): 50 bits from Q_UPDOWN to
    /// Q_LINK.
    ///
    /// # Errors
    ///
    /// `AllocError` if out of memory.
    pub fn variables(&self, alloc: Global) -> Result<Vec<(Var, u64)>, AllocError>
        ensures { IfOk result (λ pairs. pairs.items ≡ header_reading self.now) }
    {
        pairs_of(self, alloc)
    }
}

impl Variables for Telegram {
    ghost use Rattle.etcs_telegram.specs.Telegrams.{telegram_value};
    ghost use Rattle.etcs_telegram.specs.Writing.{telegram_reading};

    ghost reading_of = { λ t. telegram_reading (telegram_value t) };

    fn bits(&self) -> usize {
        self.readable();
        8 * self.size().container_bytes()
    }

    fn send<S: VarSink>(&self, out: &mut S) -> Result<(), AllocError> {
        self.header().send(out)?;
        send_closed(self.packets(), &self.fill(), self.size().pad_bits(), out)
    }
}

/// Sends packets with packet 255, the bits of FILL, and this many zeros of PAD.
fn send_closed<S: VarSink>(
    packets: &[Packet],
    fill: &BitSlice<'_>,
    zeros: usize,
    out: &mut S,
) -> Result<(), AllocError>
    requires { zeros ≤ 6 }
    ensures ok { OnOk result (out.new ≡ S.with out.old (beyond_header (closed_reading (map packet_value packets.now)) fill.now zeros)) }
    ensures err { OnErr result (S.failed out.old out.new) }
{
    send_all(packets, out)?;
    out.send(&[(Var::NID_PACKET, u64::from(CLOSING))])?;
    send_bits(Var::FILL, fill, out)?;
    out.send(&[(Var::PAD, 0); 6][..zeros])
}

/// Sends the header's first variables, which have these numbers.
fn send_header<S: VarSink>(numbers: &[u64], out: &mut S) -> Result<(), AllocError>
    requires { length numbers.now ≤ 10 }
    ensures ok { OnOk result (out.new ≡ S.with out.old (labelled header_row numbers.now)) }
    ensures err { OnErr result (S.failed out.old out.new) }
{
    for at in 0..numbers.len() {
        out.send(&[(header_var(at), numbers[at])])?;
    }
    Ok(())
}

impl TelegramRest<TelegramStore> {
    /// Sends the variables that were read, which take this many bits.
    ///
    /// # Errors
    ///
    /// That of the sink.
    pub(crate) fn send_read<S: VarSink>(&self, bits: usize, out: &mut S) -> Result<(), AllocError>
        requires goes { Goes (Left self.now) }
        requires bits { length (spelled (so_far self.now)) ≡ bits }
        requires held { HoldsIn store_holds self.now (so_far self.now) }
        ensures ok { OnOk result (out.new ≡ S.with out.old (so_far self.now)) }
        ensures err { OnErr result (S.failed out.old out.new) }
    {
        let list = &self.packets.store.list;
        send_header(self.header.as_slice(), out)?;
        let zeros = match self.phase {
            Phase::Header(_) => return Ok(()),
            Phase::Packets => return self.packets.left.send(bits - HEADER_BITS, list, out),
            Phase::Fill(_) => 0,
            Phase::Pad(left) => self.size.pad_bits() - left,
            Phase::Whole => self.size.pad_bits(),
        };
        send_closed(list.packets.as_slice(), &list.bits.as_slice(), zeros, out)
    }
}
