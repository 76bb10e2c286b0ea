//! The plain text message.

ghost use Rattle.etcs_bodies.specs.Repeats.{Stand};
ghost use Rattle.etcs_bodies.specs.Passing.{Passed, Begun};
ghost use Rattle.std.specs.Prelude.{◌≡◌, None, Some, OnOk, OnErr, IfOk, IfErr, IfSome, IfNone, length, All, List, false, IsTrue, ℕ};
ghost use Rattle.std.specs.Prelude.{flat_map};
ghost use Rattle.etcs_bodies.specs.Taking.{next_number, times_from};
ghost use Rattle.etcs_bodies.specs.Formats.{number, Is, reading};
ghost use Rattle.etcs_bodies.specs.Codecs.{list_from};
ghost use Rattle.etcs_bodies.specs.Faults.{count_fault};
ghost use Rattle.etcs_vars.specs.declared.var.Var.TheVariants.{L_TEXT, X_TEXT};
ghost use Rattle.etcs_bodies.specs.PacketFormats.{IsPacketOf};
ghost use Rattle.etcs_grouped.specs.PlainTexts.{plain_text_packet, plain_text_value, plain_text_fault, text_format};

use etcs_bodies::laws::Exact;
use etcs_bodies::{Body, ListOf, Numbers, Part, Passing, check, check_count, taken};
use etcs_parts::TextFrame;
use etcs_tables::Way;
use etcs_vars::inner::{VarSink, Variables};
use etcs_vars::{BuildFault, Var};
use std::alloc::{AllocError, Global};
use std::marker::Model;

/// The plain text message: a text, and when and where it is shown (packet 72; SUBSET-026, 7.4.2).
#[derive(Debug, Drop, PartialEq, Eq)]
pub struct PlainText {
    dir: u8,
    text: ListOf<u8>,
    frame: TextFrame,
}

impl Model for PlainText {
    ghost use Rattle.etcs_bodies.specs.PacketFormats.{IsPacketOf};
    ghost use Rattle.etcs_grouped.specs.PlainTexts.{plain_text_packet, PlainText};

    ghost Value = { PlainText };

    ghost view = { λ s. s };

    ghost invariant = { IsPacketOf plain_text_packet };

    ghost inverse = { λ s. s };
}

impl PlainText {
    /// The message of these parts, returned exactly if none of the errors below applies. The frame is a value already,
    /// and isn't checked again.
    ///
    /// - `dir`: Q_DIR, for which direction of the train it holds (0 reverse, 1 nominal, 2 both);
    /// - `frame`: when and where the text is shown, and how it is confirmed;
    /// - `text`: the characters of the text, each a byte of ISO 8859-1, at most 255.
    ///
    /// # Errors
    ///
    /// The first of these that applies, with the text that was given:
    ///
    /// - `NotAdmitted(Q_DIR)`: the direction is above 2.
    /// - `TooMany(L_TEXT)`: the text has more than 255 bytes.
    pub fn new(dir: u8, frame: TextFrame, text: Vec<u8>) -> Result<PlainText, (BuildFault, Vec<u8>)>
        ensures ok { IfOk result (λ p. p ≡ plain_text_value dir frame text.items) }
        ensures none { IfOk result (λ p. plain_text_fault (plain_text_value dir frame text.items) ≡ None) }
        ensures fault { IfErr result (λ e. plain_text_fault (plain_text_value dir frame text.items) ≡ Some e.0) }
        ensures text { IfErr result (λ e. e.1.items ≡ text.items) }
    {
        match faultless(dir, &frame, text.as_slice()) {
            Ok(()) => Ok(PlainText {
                dir,
                text: ListOf::from_vec(text),
                frame,
            }),
            Err(fault) => Err((fault, text)),
        }
    }

    /// When and where the text is shown, and how it is confirmed.
    pub fn frame(&self) -> TextFrame
        ensures { result ≡ self.now.frame }
    {
        self.frame
    }

    /// X_TEXT: the characters of the text, each a byte of ISO 8859-1.
    pub fn text(&self) -> &[u8]
        ensures { result.now ≡ self.now.text }
    {
        self.text.as_slice()
    }
}

/// Refuses what is no packet.
fn faultless(dir: u8, frame: &TextFrame, text: &[u8]) -> Result<(), BuildFault>
    ensures ok { OnOk result (IsPacketOf plain_text_packet (plain_text_value dir frame.now text.now)) }
    ensures fault { IfErr result (λ e. plain_text_fault (plain_text_value dir frame.now text.now) ≡ Some e) }
{
    check(Var::Q_DIR, u64::from(dir))?;
    check_count(Var::L_TEXT, text.len())?;
    frame.holds();
    Ok(())
}

/// Takes this many bytes.
fn take_bytes<L: Numbers>(
    alloc: Global,
    numbers: &mut L,
    count: usize,
) -> Result<Option<Vec<u8>>, AllocError>
    ensures count { IfOk result (λ o. IfSome o (λ bytes. length bytes.items ≡ count)) }
    ensures bytes { IfOk result (λ o. IfSome o (λ bytes. All (Is (number X_TEXT)) bytes.items)) }
    ensures from { IfOk result (λ o. IfSome o (λ bytes. times_from (next_number X_TEXT) count (L.left numbers.old) ≡ Some (bytes.items, L.left numbers.new))) }
    ensures none { IfOk result (λ o. IfNone o (times_from (next_number X_TEXT) count (L.left numbers.old) ≡ None)) }
{
    let mut bytes = Vec::with_capacity(alloc, count)?;
    for _ in 0..count {
        match numbers.next(Var::X_TEXT) {
            Some(byte) => bytes.push(byte as u8)?,
            None => return Ok(None),
        }
    }
    Ok(Some(bytes))
}

/// Takes the text after its count.
#[tactic(auto, using(etcs_bodies::specs::laws::Repeats::list_is, etcs_bodies::specs::laws::Repeats::list_missing, etcs_bodies::specs::laws::Repeats::list_uncounted, etcs_bodies::specs::laws::Takes::counted_is))]
fn take_text<L: Numbers>(alloc: Global, numbers: &mut L) -> Result<Option<Vec<u8>>, AllocError>
    ensures count { IfOk result (λ o. IfSome o (λ bytes. count_fault L_TEXT (length bytes.items) ≡ None)) }
    ensures bytes { IfOk result (λ o. IfSome o (λ bytes. All (Is (number X_TEXT)) bytes.items)) }
    ensures from { IfOk result (λ o. IfSome o (λ bytes. list_from L_TEXT (next_number X_TEXT) (L.left numbers.old) ≡ Some (bytes.items, L.left numbers.new))) }
    ensures none { IfOk result (λ o. IfNone o (list_from L_TEXT (next_number X_TEXT) (L.left numbers.old) ≡ None)) }
{
    let count = taken!(numbers.next(Var::L_TEXT));
    take_bytes(alloc, numbers, count as usize)
}

/// Sends this many bytes that the numbers begin with, and returns whether they begin with as many.
fn pass_bytes<L: Numbers, S: VarSink>(
    count: u64,
    numbers: &mut L,
    out: &mut S,
) -> Result<bool, AllocError>
    ensures passed { IfOk result (λ b. IsTrue b → (bytes : List ℕ) × Stand (Is (number X_TEXT)) (reading (number X_TEXT)) count (L.left numbers.old) bytes (L.left numbers.new) × (out.new ≡ S.with out.old (flat_map (reading (number X_TEXT)) bytes))) }
    ensures begun { IfOk result (λ b. b ≡ false → Begun S.with out.old out.new) }
    ensures err { OnErr result (S.failed out.old out.new) }
{
    for _ in 0..count {
        let Some(byte) = numbers.next(Var::X_TEXT) else {
            return Ok(false);
        };
        out.send(&[(Var::X_TEXT, byte)])?;
    }
    Ok(true)
}

/// Sends the text after its count that the numbers begin with, and returns whether they begin with one.
#[inline(always)]
fn pass_text<L: Numbers, S: VarSink>(numbers: &mut L, out: &mut S) -> Result<bool, AllocError>
    ensures passed { IfOk result (λ b. IsTrue b → Passed (Is text_format) (reading text_format) S.with (L.left numbers.old) (L.left numbers.new) out.old out.new) }
    ensures begun { IfOk result (λ b. b ≡ false → Begun S.with out.old out.new) }
    ensures err { OnErr result (S.failed out.old out.new) }
{
    let Some(count) = numbers.next(Var::L_TEXT) else {
        return Ok(false);
    };
    out.send(&[(Var::L_TEXT, count)])?;
    pass_bytes(count, numbers, out)
}

/// Sends the bytes, in order.
fn send_bytes<S: VarSink>(bytes: &[u8], out: &mut S) -> Result<(), AllocError>
    ensures ok { OnOk result (out.new ≡ S.with out.old (flat_map (reading (number X_TEXT)) bytes.now)) }
    ensures err { OnErr result (S.failed out.old out.new) }
{
    for byte in bytes {
        out.send(&[(Var::X_TEXT, u64::from(*byte))])?;
    }
    Ok(())
}

/// Sends the text after its count.
fn send_text<S: VarSink>(text: &[u8], out: &mut S) -> Result<(), AllocError>
    ensures ok { OnOk result (out.new ≡ S.with out.old (reading text_format text.now)) }
    ensures err { OnErr result (S.failed out.old out.new) }
{
    out.send(&[(Var::L_TEXT, text.len() as u64)])?;
    send_bytes(text, out)
}

impl Variables for PlainText {
    ghost use Rattle.etcs_bodies.specs.PacketFormats.{packet_reading};
    ghost use Rattle.etcs_grouped.specs.PlainTexts.{plain_text_packet};

    ghost reading_of = { λ p. packet_reading plain_text_packet p };

    #[tactic(auto, using(crate::specs::laws::PlainTexts::plain_text_length, crate::specs::laws::PlainTexts::few_bytes, etcs_parts::specs::laws::TextFrames::text_frame_small))]
    fn bits(&self) -> usize {
        self.frame.bits() + 8 + 8 * self.text.len()
    }

    fn send<S: VarSink>(&self, out: &mut S) -> Result<(), AllocError> {
        self.frame.send(out)?;
        send_text(self.text.as_slice(), out)
    }
}

impl Body for PlainText {
    ghost use Rattle.etcs_tables.specs.declared.row.Way.TheVariants.{ToTrain};
    ghost use Rattle.etcs_bodies.specs.PacketFormats.{IsPacketOf, packet_left};
    ghost use Rattle.etcs_grouped.specs.PlainTexts.{plain_text_packet};
    ghost use Rattle.etcs_grouped.specs.laws.PlainTexts.{plain_text_codes};

    const NID: u8 = 72;

    const WAY: Way = Way::ToTrain;

    ghost NID = { 72 };

    ghost WAY = { ToTrain };

    ghost direction = { λ p. p.dir };

    ghost is_value = { λ p. IsPacketOf plain_text_packet p };

    ghost read_from = { λ dir s. packet_left plain_text_packet dir s };

    ghost codes = { plain_text_codes };

    fn q_dir(&self) -> u8 {
        self.dir
    }

    #[tactic(auto, using(etcs_bodies::specs::laws::Takes::number_ok), unfolding(etcs_bodies::specs::PacketCodes::directed_from))]
    fn take<L: Numbers>(
        alloc: Global,
        dir: u8,
        numbers: &mut L,
    ) -> Result<Option<Self>, AllocError> {
        let frame = taken!(TextFrame::take(alloc, numbers)?);
        let text = taken!(take_text(alloc, numbers)?);
        Ok(Some(PlainText {
            dir,
            text: ListOf::from_vec(text),
            frame,
        }))
    }

    #[inline(always)]
    fn pass<L: Numbers, S: VarSink>(numbers: &mut L, out: &mut S) -> Result<bool, AllocError> {
        Ok(TextFrame::pass(numbers, out)? && pass_text(numbers, out)?)
    }

    fn copy(&self, alloc: Global) -> Result<PlainText, AllocError> {
        Ok(PlainText {
            dir: self.dir,
            text: ListOf::from_vec(copy(alloc, self.text.as_slice())?),
            frame: self.frame,
        })
    }
}

/// The same bytes again.
fn copy(alloc: Global, bytes: &[u8]) -> Result<Vec<u8>, AllocError>
    ensures { IfOk result (λ b. b.items ≡ bytes.now) }
{
    let mut copied = Vec::with_capacity(alloc, bytes.len())?;
    copied.extend_from_slice(bytes)?;
    Ok(copied)
}

impl Exact for PlainText {
    ghost use Rattle.etcs_grouped.specs.laws.PlainTexts.{plain_text_exact};

    ghost exact = { plain_text_exact };
}
