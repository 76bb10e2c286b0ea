//! A telegram in bytes of the caller's.

ghost use Rattle.std.specs.Prelude.{◌≡◌, ◌≢◌, ◌↔◌, ℕ, length, Some, Err, IfOk};
ghost use Rattle.etcs_bits.specs.Bits.{bits};
ghost use Rattle.etcs_vars.specs.Walking.{Refuses};
ghost use Rattle.etcs_sequence.specs.Refs.{spellings};
ghost use Rattle.etcs_telegram.specs.Telegrams.{TelegramValue, TelegramLanguage, container_bytes};
ghost use Rattle.etcs_telegram.specs.Texts.{view_fault_text};
ghost use Rattle.etcs_telegram.specs.Views.{Sees};

use crate::header::{Header, header_by};
use crate::header_bits::HEADER_BITS;
use crate::rest::TelegramRest;
use crate::size::Size;
use etcs_bits::BitSlice;
use etcs_packets::Packet;
use etcs_reader::{Feeder, Stop};
use etcs_sequence::inner::{bits_at, packets};
use etcs_sequence::{PacketCount, Packets};
use etcs_vars::Var;
use std::error::Error;
use std::fmt;
use std::marker::Model;

/// Why bytes aren't a telegram.
#[derive(Clone, Copy, Debug, PartialEq, Eq)]
pub enum ViewFault {
    /// They aren't as many as a telegram of the size takes: 27 or 104.
    Length,
    /// No telegram begins with the bits up to this one, counted from 0, which is in this variable.
    Refused { bit: usize, var: Var },
}

impl fmt::Display for ViewFault {
    ghost output = { λ fault. Some (view_fault_text fault) };

    fn fmt<W: fmt::Write>(&self, f: &mut fmt::Formatter<W>) -> fmt::Result {
        match self {
            ViewFault::Length => f.write_str("not as many bytes as a telegram of this size takes"),
            ViewFault::Refused { bit, var } => write!(f, "refused at bit {bit}, {var}"),
        }
    }
}

impl Error for ViewFault {}

/// A balise telegram in bytes of the caller's (SUBSET-026, 8; the user bits: SUBSET-036): nothing of it is copied but
/// the header's numbers, and no memory is taken.
#[derive(Debug, Drop)]
pub struct TelegramView<'a> {
    bytes: &'a [u8],
    size: Size,
    header: Header,
    /// How many packets there are.
    packets: usize,
    /// How many bits come before FILL.
    end: usize,
}

impl<'a> Model for TelegramView<'a> {
    ghost use Rattle.etcs_bits.specs.Bits.{bits};
    ghost use Rattle.etcs_telegram.specs.Views.{ViewValue, ViewIn};

    ghost Value = { ViewValue };

    ghost view = { λ v. record { bytes = v.bytes.now; size = v.size } };

    ghost invariant = { λ v. ViewIn v.size (bits v.bytes.now) v.header v.packets v.end };
}

impl<'a> TelegramView<'a> {
    /// A view of the telegram that these bytes are. Succeeds exactly if they are 27 or 104 bytes, depending on the size,
    /// that spell a telegram of the size. Takes no memory.
    ///
    /// # Errors
    ///
    /// - [`ViewFault::Length`] exactly if they aren't that many;
    /// - else [`ViewFault::Refused`] with the first bit, counted from 0, with which no telegram of the size continues,
    ///   and the variable that holds it, as `TelegramReader::feed` reports them.
    pub fn new(bytes: &'a [u8], size: Size) -> Result<TelegramView<'a>, ViewFault>
        ensures length { (result ≡ Err ViewFault.Length) ↔ (length bytes.now ≢ container_bytes size) }
        ensures bytes { IfOk result (λ v. (v.bytes ≡ bytes.now) × (v.size ≡ size)) }
        ensures ok { IfOk result (λ v. (t : TelegramValue) × Sees v t) }
        ensures refused { (bit : ℕ) (var : Var) → result ≡ Err (ViewFault.Refused bit var) → Refuses (TelegramLanguage size) (bits bytes.now) bit var }
    {
        if bytes.len() != size.container_bytes() {
            return Err(ViewFault::Length);
        }
        let mut feeder = Feeder::new(TelegramRest::new(size, PacketCount::<Packet>::new()));
        match feeder.feed(bytes) {
            Ok(_) => {
                let rest = feeder.rest();
                Ok(TelegramView {
                    bytes,
                    size,
                    header: header_by(rest.header.as_slice()),
                    packets: rest.packets.store.packets,
                    end: size.user_bits() - rest.packets.left.room,
                })
            }
            Err(Stop::Refused { bit, var }) => Err(ViewFault::Refused { bit, var }),
            Err(Stop::Memory) => unreachable!(),
        }
    }

    /// The size that the view was made with.
    pub fn size(&self) -> Size
        ensures { result ≡ self.now.size }
    {
        self.size
    }

    /// The header of the telegram that the bytes spell.
    pub fn header(&self) -> Header
        ensures { (t : TelegramValue) → Sees self.now t → result ≡ t.header }
    {
        self.header
    }

    /// The packets of the telegram that the bytes spell, in order, without packet 255: each is a slice of the bytes.
    pub fn packets(&self) -> Packets<'a>
        ensures { (t : TelegramValue) → Sees self.now t → result ≡ spellings t.packets }
    {
        packets(
            bits_at(self.bytes, HEADER_BITS, self.size.packet_room()),
            self.packets,
        )
    }

    /// The bits of FILL of the telegram that the bytes spell.
    pub fn fill(&self) -> BitSlice<'a>
        ensures { (t : TelegramValue) → Sees self.now t → result ≡ t.fill }
    {
        bits_at(self.bytes, self.end, self.size.user_bits() - self.end)
    }
}
