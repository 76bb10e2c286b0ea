//! Which items are written as good lines.

ghost use Rattle.std.specs.Prelude.{◌≡◌, ◌||◌};
ghost use Rattle.std.specs.List.{list_any};
ghost use Rattle.etcs_packets.specs.PacketValues.{nid_of};
ghost use Rattle.etcs_text.specs.Entries.{entry_value};
ghost use Rattle.etcs_log.specs.Numbers.{has_number};
ghost use Rattle.etcs_log.specs.Picks.{is_picked, picks, picks_some};

use crate::job::LogJob;
use crate::numbers::NumberSet;
use etcs_packets::inner::AnyPacket;
use etcs_text::Entry;

/// Whether one of the packets is of a number of the set.
fn has_packet<P: AnyPacket>(set: &NumberSet, packets: &[P]) -> bool
    ensures { result ≡ list_any (λ p. has_number set.now (nid_of (P.form p).value)) packets.now }
{
    packets.iter().any(|packet| set.contains(packet.nid()))
}

impl LogJob {
    /// Whether not all items are written.
    #[inline]
    pub(crate) fn picks_some(&self) -> bool
        ensures { result ≡ picks_some self.now }
    {
        self.packets.any || self.messages.any
    }

    /// Whether the message of this number, or one of its packets, is asked for.
    fn is_message_picked<P: AnyPacket>(&self, number: u8, packets: &[P]) -> bool
        ensures { result ≡ has_number self.now.messages number || list_any (λ p. has_number self.now.packets (nid_of (P.form p).value)) packets.now }
    {
        self.messages.contains(number) || has_packet(&self.packets, packets)
    }

    /// Whether the item has a packet, or is a message, of a number that is asked for.
    fn is_picked(&self, entry: &Entry) -> bool
        ensures { result ≡ is_picked self.now (entry_value entry.now) }
    {
        match entry {
            Entry::Telegram(telegram) => has_packet(&self.packets, telegram.packets()),
            Entry::Message(message) => self.is_message_picked(message.nid(), message.packets()),
            Entry::Train(message) => self.is_message_picked(message.nid(), message.packets()),
        }
    }

    /// Whether the item is written.
    #[inline]
    pub(crate) fn picks(&self, entry: &Entry) -> bool
        ensures { result ≡ picks self.now (entry_value entry.now) }
    {
        !self.picks_some() || self.is_picked(entry)
    }
}
