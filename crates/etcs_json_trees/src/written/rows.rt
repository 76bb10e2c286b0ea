//! Variables of headers, heads and bodies put as bits, read from the text of their pairs.

ghost use Rattle.std.specs.Prelude.{◌≡◌, ◌-◌, ◌≤◌, ◌++◌, [], IfSome, length, drop, map};
ghost use Rattle.serde_json.specs.Written.{compact_text};
ghost use Rattle.etcs_vars.specs.Reading.{Reading, spelled};
ghost use Rattle.etcs_tables.specs.Headers.{header_row, head_row};
ghost use Rattle.etcs_tables.specs.Layouts.{Reads, layout};
ghost use Rattle.etcs_tables.specs.declared.item.RowItem.TheVariants as item;
ghost use Rattle.etcs_tables.specs.declared.row.Way.TheVariants.{ToTrain, ToTrack};
ghost use Rattle.etcs_packet_text.specs.Trees.{pairs_tree};

use crate::written::pair_text::PairText;
use crate::written::text::Text;
use etcs_bodies::{NextNumber, Numbers};
use etcs_tables::{Row, RowItem, Way};
use etcs_vars::inner::VarSink;
use etcs_vars::{BitPage, Var};

/// Puts the variables of a row without groups with the list of whose pairs a text begins, and returns how many bytes are
/// after it. When it succeeds isn't promised, nor what is put after `None`.
#[inline(always)]
pub fn put_row(row: Row, text: &[u8], out: &mut BitPage) -> Option<usize>
    ensures { IfSome result (λ n. (r : Reading) × Reads (layout row.items.now) [] r × (n ≤ length text.now) × (text.now ≡ compact_text (pairs_tree r) ++ drop (length text.now - n) text.now) × (out.new ≡ out.old ++ spelled r)) }
{
    if row.items.is_empty() {
        let mut left = Text::new(text);
        left.pass(b"[]")?;
        return Some(left.left().len());
    }
    put_items(row, text, out)
}

/// As [`put_row`], of a row with variables.
#[inline(never)]
fn put_items(row: Row, text: &[u8], out: &mut BitPage) -> Option<usize>
    ensures { IfSome result (λ n. (r : Reading) × Reads (layout row.items.now) [] r × (n ≤ length text.now) × (text.now ≡ compact_text (pairs_tree r) ++ drop (length text.now - n) text.now) × (out.new ≡ out.old ++ spelled r)) }
{
    let mut pairs = PairText::new(text)?;
    for item in row.items {
        let RowItem::One(var) = item else {
            return None;
        };
        let number = pairs.next(*var)?;
        out.send(&[(*var, number)]).ok()?;
    }
    Some(pairs.end()?.len())
}

/// The same for a telegram's header.
#[inline(never)]
pub fn put_header(text: &[u8], out: &mut BitPage) -> Option<usize>
    ensures { IfSome result (λ n. (r : Reading) × Reads (layout (map (λ v. item.One v) header_row)) [] r × (n ≤ length text.now) × (text.now ≡ compact_text (pairs_tree r) ++ drop (length text.now - n) text.now) × (out.new ≡ out.old ++ spelled r)) }
{
    let mut pairs = PairText::new(text)?;
    let (updown, (version, (media, (pig, total)))) = pairs.run((
        Var::Q_UPDOWN,
        (
            Var::M_VERSION_HEADER,
            (Var::Q_MEDIA, (Var::N_PIG, Var::N_TOTAL)),
        ),
    ))?;
    out.send(&[
        (Var::Q_UPDOWN, updown),
        (Var::M_VERSION_HEADER, version),
        (Var::Q_MEDIA, media),
        (Var::N_PIG, pig),
        (Var::N_TOTAL, total),
    ])
    .ok()?;
    let (dup, (count, (country, (group, link)))) = pairs.run((
        Var::M_DUP,
        (Var::M_MCOUNT, (Var::NID_C, (Var::NID_BG, Var::Q_LINK))),
    ))?;
    out.send(&[
        (Var::M_DUP, dup),
        (Var::M_MCOUNT, count),
        (Var::NID_C, country),
        (Var::NID_BG, group),
        (Var::Q_LINK, link),
    ])
    .ok()?;
    Some(pairs.end()?.len())
}

/// The same for a message's head.
#[inline(always)]
pub fn put_head(way: Way, text: &[u8], out: &mut BitPage) -> Option<usize>
    ensures { IfSome result (λ n. (r : Reading) × Reads (layout (map (λ v. item.One v) (head_row way))) [] r × (n ≤ length text.now) × (text.now ≡ compact_text (pairs_tree r) ++ drop (length text.now - n) text.now) × (out.new ≡ out.old ++ spelled r)) }
{
    match way {
        Way::ToTrain => put_radio_head(text, out),
        Way::ToTrack => put_train_head(text, out),
    }
}

/// The head of a message to the train.
#[inline(always)]
fn put_radio_head(text: &[u8], out: &mut BitPage) -> Option<usize>
    ensures { IfSome result (λ n. (r : Reading) × Reads (layout (map (λ v. item.One v) (head_row ToTrain))) [] r × (n ≤ length text.now) × (text.now ≡ compact_text (pairs_tree r) ++ drop (length text.now - n) text.now) × (out.new ≡ out.old ++ spelled r)) }
{
    let mut pairs = PairText::new(text)?;
    let (time, (ack, group)) = pairs.run((Var::T_TRAIN, (Var::M_ACK, Var::NID_LRBG)))?;
    out.send(&[
        (Var::T_TRAIN, time),
        (Var::M_ACK, ack),
        (Var::NID_LRBG, group),
    ])
    .ok()?;
    Some(pairs.end()?.len())
}

/// The head of a message to the track.
#[inline(always)]
fn put_train_head(text: &[u8], out: &mut BitPage) -> Option<usize>
    ensures { IfSome result (λ n. (r : Reading) × Reads (layout (map (λ v. item.One v) (head_row ToTrack))) [] r × (n ≤ length text.now) × (text.now ≡ compact_text (pairs_tree r) ++ drop (length text.now - n) text.now) × (out.new ≡ out.old ++ spelled r)) }
{
    let mut pairs = PairText::new(text)?;
    let (time, engine) = pairs.run((Var::T_TRAIN, Var::NID_ENGINE))?;
    out.send(&[(Var::T_TRAIN, time), (Var::NID_ENGINE, engine)])
        .ok()?;
    Some(pairs.end()?.len())
}
