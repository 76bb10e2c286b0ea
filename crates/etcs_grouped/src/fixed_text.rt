//! The fixed text message.

ghost use Rattle.std.specs.Prelude.{◌≡◌, None, Some, IfOk, IfErr};
ghost use Rattle.etcs_grouped.specs.FixedTexts.{fixed_text_value, fixed_text_fault};

use etcs_bodies::laws::Exact;
use etcs_bodies::{Body, Numbers, Part, Passing, build_packet, send_fields, take_fields};
use etcs_parts::TextFrame;
use etcs_tables::Way;
use etcs_vars::inner::{VarSink, Variables};
use etcs_vars::{BuildFault, Var};
use std::alloc::{AllocError, Global};
use std::marker::Model;

/// Its fields in the order of its row.
macro_rules! fields {
    ($then:ident: $($with:tt)*) => { $then! { { $($with)* } frame: TextFrame; q_text: Q_TEXT u8 } };
}

/// The fixed text message: one of the texts that the train knows, and when and where it is shown (packet 76;
/// SUBSET-026, 7.4.2).
#[derive(Clone, Copy, Debug, PartialEq, Eq)]
pub struct FixedText {
    dir: u8,
    q_text: u8,
    frame: TextFrame,
}

impl Model for FixedText {
    ghost use Rattle.etcs_bodies.specs.PacketFormats.{IsPacketOf};
    ghost use Rattle.etcs_grouped.specs.FixedTexts.{fixed_text_packet, FixedText};

    ghost Value = { FixedText };

    ghost view = { λ s. s };

    ghost invariant = { IsPacketOf fixed_text_packet };

    ghost inverse = { λ s. s };
}

impl FixedText {
    /// The message of these parts, returned exactly if the error below doesn't apply. The frame is a value already, and
    /// isn't checked again.
    ///
    /// - `dir`: Q_DIR, for which direction of the train it holds (0 reverse, 1 nominal, 2 both);
    /// - `frame`: when and where the text is shown, and how it is confirmed;
    /// - `q_text`: the number of the text, 0 to 255.
    ///
    /// # Errors
    ///
    /// `NotAdmitted(Q_DIR)`: the direction is above 2.
    pub fn new(dir: u8, frame: TextFrame, q_text: u8) -> Result<FixedText, BuildFault>
        ensures ok { IfOk result (λ p. p ≡ fixed_text_value dir frame q_text) }
        ensures none { IfOk result (λ p. fixed_text_fault (fixed_text_value dir frame q_text) ≡ None) }
        ensures fault { IfErr result (λ e. fixed_text_fault (fixed_text_value dir frame q_text) ≡ Some e) }
    {
        fields!(build_packet: [] dir; frame; q_text)
    }

    /// When and where the text is shown, and how it is confirmed.
    pub fn frame(&self) -> TextFrame
        ensures { result ≡ self.now.frame }
    {
        self.frame
    }

    /// Q_TEXT: the number of the text.
    pub fn q_text(&self) -> u8
        ensures { result ≡ self.now.q_text }
    {
        self.q_text
    }
}

impl Variables for FixedText {
    ghost use Rattle.etcs_bodies.specs.PacketFormats.{packet_reading};
    ghost use Rattle.etcs_grouped.specs.FixedTexts.{fixed_text_packet};

    ghost reading_of = { λ p. packet_reading fixed_text_packet p };

    #[tactic(auto, using(crate::specs::laws::FixedTexts::fixed_text_length, etcs_parts::specs::laws::TextFrames::text_frame_small))]
    fn bits(&self) -> usize {
        self.frame.bits() + 8
    }

    fn send<S: VarSink>(&self, out: &mut S) -> Result<(), AllocError> {
        fields!(send_fields: self, out)
    }
}

impl Body for FixedText {
    ghost use Rattle.etcs_tables.specs.declared.row.Way.TheVariants.{ToTrain};
    ghost use Rattle.etcs_bodies.specs.PacketFormats.{IsPacketOf, packet_left};
    ghost use Rattle.etcs_grouped.specs.FixedTexts.{fixed_text_packet};
    ghost use Rattle.etcs_grouped.specs.laws.FixedTexts.{fixed_text_codes};

    const NID: u8 = 76;

    const WAY: Way = Way::ToTrain;

    ghost NID = { 76 };

    ghost WAY = { ToTrain };

    ghost direction = { λ p. p.dir };

    ghost is_value = { λ p. IsPacketOf fixed_text_packet p };

    ghost read_from = { λ dir s. packet_left fixed_text_packet dir s };

    ghost codes = { fixed_text_codes };

    fn q_dir(&self) -> u8 {
        self.dir
    }

    #[tactic(auto, using(etcs_bodies::specs::laws::Takes::number_ok), unfolding(etcs_bodies::specs::PacketCodes::directed_from))]
    fn take<L: Numbers>(
        alloc: Global,
        dir: u8,
        numbers: &mut L,
    ) -> Result<Option<Self>, AllocError> {
        fields!(take_fields: alloc, numbers, dir)
    }

    #[inline(always)]
    fn pass<L: Numbers, S: VarSink>(numbers: &mut L, out: &mut S) -> Result<bool, AllocError> {
        if !TextFrame::pass(numbers, out)? {
            return Ok(false);
        }
        let Some(q_text) = numbers.next(Var::Q_TEXT) else {
            return Ok(false);
        };
        out.send(&[(Var::Q_TEXT, q_text)])?;
        Ok(true)
    }

    fn copy(&self, _alloc: Global) -> Result<FixedText, AllocError> {
        Ok(*self)
    }
}

impl Exact for FixedText {
    ghost use Rattle.etcs_grouped.specs.laws.FixedTexts.{fixed_text_exact};

    ghost exact = { fixed_text_exact };
}
