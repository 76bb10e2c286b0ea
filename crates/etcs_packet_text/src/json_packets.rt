//! Packets as JSON.

ghost use Rattle.std.specs.Prelude.{◌≡◌, ◌++◌, OnErr, OnOk};
ghost use Rattle.serde_json.specs.Written.{comma_if, compact_text};
ghost use Rattle.etcs_packets.specs.PacketValues.{kept};
ghost use Rattle.etcs_packet_text.specs.Fronts.{Begins};
ghost use Rattle.etcs_packet_text.specs.JsonParts.{data_after, fields_front, sent_of};
ghost use Rattle.etcs_packet_text.specs.Trees.{packet_tree};

use crate::json_page::JsonPage;
use crate::packet_page::{PacketPage, Place};
use etcs_bits::BitSlice;
use etcs_tables::Way;
use std::alloc::AllocError;

/// The direction, if it is sent.
#[inline(always)]
fn sent_dir(way: Way, dir: Option<u8>) -> Option<u8>
    ensures { result ≡ sent_of way dir }
{
    match way {
        Way::ToTrain => dir,
        Way::ToTrack => None,
    }
}

/// Appends a comma if an item of the list is before.
#[inline(always)]
fn write_comma(later: bool, page: &mut JsonPage) -> Result<(), AllocError>
    ensures ok { OnOk result (page.new.0 ≡ page.old.0 ++ comma_if later) }
    ensures err { OnErr result (page.new.0 ≡ page.old.0) }
{
    if later {
        return page.put_array(b",");
    }
    Ok(())
}

/// Appends what comes before a packet's fields, after a comma if an item of the list is before it.
#[inline(always)]
fn write_front(later: bool, dir: Option<u8>, page: &mut JsonPage) -> Result<(), AllocError>
    ensures ok { OnOk result (page.new.0 ≡ page.old.0 ++ (comma_if later ++ fields_front dir)) }
    ensures err { OnErr result (Begins page.old.0 page.new.0) }
{
    write_comma(later, page)?;
    match dir {
        Some(dir) => page.put_around(b"{\"dir\":", u64::from(dir), b",\"fields\":"),
        None => page.put_array(b"{\"fields\":"),
    }
}

/// Appends what is after a packet's bits, up to its number.
#[inline(always)]
fn write_after(dir: Option<u8>, page: &mut JsonPage) -> Result<(), AllocError>
    ensures ok { OnOk result (page.new.0 ≡ page.old.0 ++ data_after dir) }
    ensures err { OnErr result (page.new.0 ≡ page.old.0) }
{
    match dir {
        Some(dir) => page.put_between(b"\",\"dir\":", u64::from(dir), b",\"nid\":"),
        None => page.put(b"\",\"nid\":"),
    }
}

/// Appends a packet that is kept as these bits, after a comma if an item of the list is before it.
#[inline(always)]
fn write_kept(
    later: bool,
    way: Way,
    nid: u8,
    dir: u8,
    body: &BitSlice<'_>,
    page: &mut JsonPage,
) -> Result<(), AllocError>
    ensures ok { OnOk result (page.new.0 ≡ page.old.0 ++ (comma_if later ++ compact_text (packet_tree way (kept nid dir body.now)))) }
    ensures err { OnErr result (Begins page.old.0 page.new.0) }
{
    write_comma(later, page)?;
    page.put(b"{\"data\":\"")?;
    page.put_slice(body)?;
    write_after(sent_dir(way, Some(dir)), page)?;
    page.put_decimal_and(u64::from(nid), b'}')
}

/// Packets are items of the list that was opened last: the first of them without a comma before it.
impl PacketPage for JsonPage {
    ghost use Rattle.std.specs.Prelude.{◌≡◌, length};
    ghost use Rattle.etcs_packet_text.specs.PairSinks.{and_packet, begun_fields, ended_fields};
    ghost use Rattle.etcs_packet_text.specs.laws.PairSinks.{pairs_sent, fields_typed, fields_marker, same_listed};

    ghost text = { λ page. page.0 };

    ghost ends = { λ page place. (place.len ≡ length page.0) × (place.later ≡ page.1) };

    ghost and_packet = { and_packet };

    ghost begun = { begun_fields };

    ghost ended = { ended_fields };

    #[inline(always)]
    fn take(&mut self) -> JsonPage {
        self.take_all()
    }

    #[inline(always)]
    fn place(&self) -> Place {
        Place {
            len: self.len(),
            later: self.is_later(),
        }
    }

    #[inline(always)]
    fn back(&mut self, place: Place) {
        self.cut(place.len, place.later);
    }

    #[inline(always)]
    fn begin(
        &mut self,
        way: Way,
        _nid: u8,
        dir: Option<u8>,
        _bits: usize,
    ) -> Result<(), AllocError> {
        write_front(self.is_later(), sent_dir(way, dir), self)?;
        self.open_list()
    }

    #[inline(always)]
    fn end(&mut self, nid: u8) -> Result<(), AllocError> {
        self.put_around(b"],\"nid\":", u64::from(nid), b"}")?;
        self.go_on();
        Ok(())
    }

    fn keep(&mut self, way: Way, nid: u8, dir: u8, body: &BitSlice<'_>) -> Result<(), AllocError> {
        write_kept(self.is_later(), way, nid, dir, body, self)?;
        self.go_on();
        Ok(())
    }

    ghost ends_len = { λ page place is. is.0 };

    ghost ends_one = { same_listed };

    ghost sent_begins = { pairs_sent };

    ghost failed_begins = { λ page other h. h };

    ghost typed_is = { fields_typed };

    ghost marker_is = { fields_marker };
}
