//! The text of an item.

ghost use Rattle.std.specs.Fmt.{decimal};
ghost use Rattle.std.specs.Prelude.{◌≡◌, ◌*◌, ◌≤◌, ◌++◌, IfOk, IfSome, IsNone, OnErr, OnOk, codes, flat_map, length};
ghost use Rattle.etcs_bits.specs.Bits.{bits};
ghost use Rattle.etcs_vars.specs.Reading.{IsOutcome, done};
ghost use Rattle.etcs_telegram.specs.Telegrams.{header_reading, user_bits};
ghost use Rattle.etcs_packet_text.specs.Fronts.{Begins};
ghost use Rattle.etcs_packet_text.specs.Show.{variable_line};
ghost use Rattle.etcs_text.specs.Entries.{EntryReads, EntryValue, entry_text, entry_value};
ghost use Rattle.etcs_text.specs.Show.{item_line, kind_word};
ghost use Rattle.etcs_text.specs.Telegrams.{show_text};
ghost use Rattle.etcs_telegram.specs.Telegrams.{telegram_value};

use crate::entry::{Entry, Kind};
use crate::messages::write_front;
use crate::writer::{ItemWriter, write_entry, write_seen};
use etcs_bits::BitSlice;
use etcs_messages::{Head, Own};
use etcs_packet_text::inner::{PacketSource, Page};
use etcs_packets::inner::AnyPacket;
use etcs_tables::Way;
use etcs_telegram::{Header, Size};
use etcs_vars::Var;
use etcs_vars::inner::Variables;
use std::alloc::AllocError;

/// What follows the number in the first line of a telegram: its kind and its count of bits.
fn size_words(size: Size) -> &'static [u8]
    ensures { result.now ≡ codes " " ++ kind_word size ++ codes " " ++ decimal (user_bits size) ++ codes " bits\n" }
{
    match size {
        Size::Short => b" short 210 bits\n",
        Size::Long => b" long 830 bits\n",
    }
}

/// Appends the first line of a telegram.
fn write_item(size: Size, item: u64, page: &mut Page) -> Result<(), AllocError>
    ensures ok { OnOk result (page.new ≡ page.old ++ item_line size item) }
    ensures err { OnErr result (page.new ≡ page.old) }
{
    page.put_between(b"item ", item, size_words(size))
}

/// Appends the lines of a header.
fn write_header(header: &Header, page: &mut Page) -> Result<(), AllocError>
    ensures ok { OnOk result (page.new ≡ page.old ++ flat_map variable_line (header_reading header.now)) }
    ensures err { OnErr result (Begins page.old page.new) }
{
    header.send(page)
}

/// Writes an item of this number as lines.
#[derive(Drop)]
pub(crate) struct Lines {
    pub(crate) item: u64,
}

impl ItemWriter for Lines {
    ghost use Rattle.etcs_text.specs.Entries.{entry_text};

    type Page = Page;

    ghost written = { λ s e. entry_text e s.item };

    #[inline(always)]
    fn telegram<Q: PacketSource>(
        &self,
        size: Size,
        header: &Header,
        packets: &Q,
        page: &mut Page,
    ) -> Result<bool, AllocError> {
        write_item(size, self.item, page)?;
        write_header(header, page)?;
        let Some(fill) = packets.write(page)? else {
            return Ok(false);
        };
        page.put(b"packet 255\n")?;
        page.put_bits_line(Var::FILL, &fill)?;
        Ok(true)
    }

    #[inline(always)]
    fn typed<H: Head, B: Own<Front = H>, Q: PacketSource>(
        &self,
        bytes: usize,
        head: &H,
        body: &B,
        packets: &Q,
        page: &mut Page,
    ) -> Result<bool, AllocError> {
        write_front(H::Packet::WAY, body.nid(), bytes, self.item, page)?;
        head.send(page)?;
        body.send(page)?;
        let Some(padding) = packets.write(page)? else {
            return Ok(false);
        };
        page.put(b"end\n")?;
        page.put_bits_line(Var::PADDING, &padding)?;
        Ok(true)
    }

    fn kept(
        &self,
        way: Way,
        nid: u8,
        bytes: usize,
        bits: &BitSlice<'_>,
        page: &mut Page,
    ) -> Result<(), AllocError> {
        write_front(way, nid, bytes, self.item, page)?;
        page.put_bits_line(Var::OTHER_DATA, bits)
    }
}

/// Appends the text of an entry, numbered `item`, to a page, as [`show_lines`] does.
///
/// # Errors
///
/// `AllocError` if out of memory. The page then stays as it was.
pub fn show_on(entry: &Entry, item: u64, page: &mut Page) -> Result<(), AllocError>
    ensures ok { OnOk result (page.new ≡ page.old ++ entry_text (entry_value entry.now) item) }
    ensures err { OnErr result (page.new ≡ page.old) }
{
    write_entry(&Lines { item }, entry, page)
}

/// Appends the text of the item, numbered `item`, that bytes begin with to a page, without a value of the item, and returns
/// how many bytes it has. It may always return `None`, also if they begin with an item; the page then stays as it was.
///
/// # Errors
///
/// `AllocError` if out of memory. The page then stays as it was.
#[inline(always)]
pub fn show_seen(
    kind: Kind,
    item: u64,
    bytes: &[u8],
    page: &mut Page,
) -> Result<Option<usize>, AllocError>
    ensures some { IfOk result (λ o. IfSome o (λ n. (n ≤ length bytes.now) × (e : EntryValue) × IsOutcome (EntryReads kind) (bits bytes.now) (done e (8 * n)) × (page.new ≡ page.old ++ entry_text e item))) }
    ensures none { IfOk result (λ o. IsNone o → page.new ≡ page.old) }
    ensures err { OnErr result (page.new ≡ page.old) }
{
    write_seen(&Lines { item }, kind, bytes, page)
}

/// Appends the text of an entry, numbered `item`: a line with the number, the kind and the count of bits (of a telegram
/// its user bits), a line for each variable of the header and of a message's own in the order of sending (SUBSET-026,
/// 7.5 and 8), its packets, and what closes it. Each line ends with a LF.
///
/// A telegram is closed by `packet 255` and the line of FILL, a typed message by `end` and the line of PADDING. After its
/// first line a message that is kept as bits has only those of NID_MESSAGE, L_MESSAGE and OTHER_DATA.
///
/// # Errors
///
/// `AllocError` if out of memory. `out` then stays as it was.
pub fn show_lines(entry: &Entry, item: u64, out: &mut Vec<u8>) -> Result<(), AllocError>
    ensures ok { OnOk result (out.new.items ≡ out.old.items ++ entry_text (entry_value entry.now) item) }
    ensures err { OnErr result (out.new.items ≡ out.old.items) }
{
    let mut page = Page::open(out);
    let shown = show_on(entry, item, &mut page);
    *out = page.into_text();
    shown
}
