//! Items as JSON, a line for each.

ghost use Rattle.std.specs.Prelude.{◌≡◌, ◌*◌, ◌≤◌, ◌++◌, ◌∷◌, [], IfOk, IfSome, IsNone, OnErr, OnOk, length};
ghost use Rattle.serde_json.specs.Written.{compact_text};
ghost use Rattle.etcs_bits.specs.Bits.{bits};
ghost use Rattle.etcs_vars.specs.Reading.{IsOutcome, done};
ghost use Rattle.etcs_text.specs.Entries.{EntryReads, EntryValue, entry_value};
ghost use Rattle.etcs_text.specs.JsonParts.{kind_member, way_member};
ghost use Rattle.etcs_text.specs.Trees.{json_tree};

use crate::entry::{Entry, Kind};
use crate::writer::{ItemWriter, write_entry, write_seen};
use etcs_bits::BitSlice;
use etcs_messages::{Head, Own};
use etcs_packet_text::inner::json_text::{JsonPage, write_variables};
use etcs_packet_text::inner::{PacketSource, Page};
use etcs_packets::inner::AnyPacket;
use etcs_tables::Way;
use etcs_telegram::{Header, Size};
use std::alloc::AllocError;

/// What is between the header and the packets of a telegram of this size in its JSON: the kind, and the name `packets`.
#[inline]
pub fn kind_member(size: Size) -> &'static [u8]
    ensures { result.now ≡ kind_member size }
{
    match size {
        Size::Short => b",\"kind\":\"short\",\"packets\":",
        Size::Long => b",\"kind\":\"long\",\"packets\":",
    }
}

/// What is just before the number of a message of this way in its JSON: the kind, and the name `nid`.
#[inline(always)]
pub fn way_member(way: Way) -> &'static [u8]
    ensures { result.now ≡ way_member way }
{
    match way {
        Way::ToTrain => b",\"kind\":\"radio\",\"nid\":",
        Way::ToTrack => b",\"kind\":\"train\",\"nid\":",
    }
}

/// Writes an item as a line of JSON.
#[derive(Drop)]
pub(crate) struct Json;

impl ItemWriter for Json {
    ghost use Rattle.std.specs.Prelude.{◌++◌, ◌∷◌, []};
    ghost use Rattle.serde_json.specs.Written.{compact_text};
    ghost use Rattle.etcs_text.specs.Trees.{json_tree};

    type Page = JsonPage;

    ghost written = { λ s e. compact_text (json_tree e) ++ 10 ∷ [] };

    #[inline(always)]
    fn telegram<Q: PacketSource>(
        &self,
        size: Size,
        header: &Header,
        packets: &Q,
        page: &mut JsonPage,
    ) -> Result<bool, AllocError> {
        let Some(fill) = packets.after() else {
            return Ok(false);
        };
        page.put(b"{\"fill\":\"")?;
        page.put_slice(&fill)?;
        page.put(b"\",\"header\":")?;
        write_variables(header, page)?;
        page.put(kind_member(size))?;
        page.open_list()?;
        let Some(after) = packets.write(page)? else {
            return Ok(false);
        };
        page.put(b"]}\n")?;
        Ok(after.len() == fill.len())
    }

    #[inline(always)]
    fn typed<H: Head, B: Own<Front = H>, Q: PacketSource>(
        &self,
        _bytes: usize,
        head: &H,
        body: &B,
        packets: &Q,
        page: &mut JsonPage,
    ) -> Result<bool, AllocError> {
        page.put(b"{\"fields\":")?;
        write_variables(body, page)?;
        page.put(b",\"header\":")?;
        write_variables(head, page)?;
        let number = u64::from(body.nid());
        page.put_between(way_member(H::Packet::WAY), number, b",\"packets\":")?;
        page.open_list()?;
        let Some(padding) = packets.write(page)? else {
            return Ok(false);
        };
        page.put(b"],\"padding\":\"")?;
        page.put_slice(&padding)?;
        page.put(b"\"}\n")?;
        Ok(true)
    }

    fn kept(
        &self,
        way: Way,
        nid: u8,
        _bytes: usize,
        bits: &BitSlice<'_>,
        page: &mut JsonPage,
    ) -> Result<(), AllocError> {
        page.put(b"{\"data\":\"")?;
        page.put_slice(bits)?;
        page.put(b"\"")?;
        page.put_between(way_member(way), u64::from(nid), b"}\n")
    }
}

/// Appends the entry's JSON and a LF to a page, as [`json_line`] does.
///
/// # Errors
///
/// `AllocError` if out of memory. The page then stays as it was.
pub fn json_on(entry: &Entry, page: &mut Page) -> Result<(), AllocError>
    ensures ok { OnOk result (page.new ≡ page.old ++ (compact_text (json_tree (entry_value entry.now)) ++ 10 ∷ [])) }
    ensures err { OnErr result (page.new ≡ page.old) }
{
    let mut json = JsonPage::open(page);
    let written = write_entry(&Json, entry, &mut json);
    *page = json.into_page();
    written
}

/// Appends the JSON and a LF of the item that bytes begin with to a page, without a value of the item, and returns how many
/// bytes it has. It may always return `None`, also if they begin with an item; the page then stays as it was.
///
/// # Errors
///
/// `AllocError` if out of memory. The page then stays as it was.
#[inline(always)]
pub fn json_seen(kind: Kind, bytes: &[u8], page: &mut Page) -> Result<Option<usize>, AllocError>
    ensures some { IfOk result (λ o. IfSome o (λ n. (n ≤ length bytes.now) × (e : EntryValue) × IsOutcome (EntryReads kind) (bits bytes.now) (done e (8 * n)) × (page.new ≡ page.old ++ (compact_text (json_tree e) ++ 10 ∷ [])))) }
    ensures none { IfOk result (λ o. IsNone o → page.new ≡ page.old) }
    ensures err { OnErr result (page.new ≡ page.old) }
{
    let mut json = JsonPage::open(page);
    let written = write_seen(&Json, kind, bytes, &mut json);
    *page = json.into_page();
    written
}

/// Appends the entry's JSON as one line: the compact text of its tree and a LF.
///
/// The members are in the order of their names. A telegram has `fill`, `header`, `kind` and `packets`, a typed message
/// `fields`, `header`, `kind`, `nid`, `packets` and `padding`, and one that is kept as bits `data`, `kind` and `nid`. A
/// packet has `dir` (but for packet 0), `fields` and `nid`, or `data`, `dir` and `nid` if it is kept as bits; to the
/// track no packet has `dir`. Bits are a text of digits 0 and 1. A variable is a pair of its name and its number, that of
/// NID_RADIO as a text of sixteen hexadecimal digits in lower case.
///
/// # Errors
///
/// `AllocError` if out of memory. `out` then stays as it was.
pub fn json_line(entry: &Entry, out: &mut Vec<u8>) -> Result<(), AllocError>
    ensures ok { OnOk result (out.new.items ≡ out.old.items ++ (compact_text (json_tree (entry_value entry.now)) ++ 10 ∷ [])) }
    ensures err { OnErr result (out.new.items ≡ out.old.items) }
{
    let mut page = Page::open(out);
    let written = json_on(entry, &mut page);
    *out = page.into_text();
    written
}
