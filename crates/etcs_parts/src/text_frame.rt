//! All of a text message but the text itself.

ghost use Rattle.std.specs.Prelude.{◌≡◌, None, Some, IfOk, IfErr, OnOk};

use crate::confirmed::Confirmed;
use crate::shown::Shown;
use etcs_bodies::laws::Exact;
use etcs_bodies::{Numbers, Part, Plain, build_part, read_fields, send_fields};
use etcs_vars::inner::{VarSink, Variables};
use etcs_vars::{BuildFault, Var};
use std::alloc::{AllocError, Global};
use std::marker::Model;

/// Its fields in the order of its row.
macro_rules! fields {
    ($then:ident: $($with:tt)*) => {
        $then! { { $($with)* }
            q_scale: Q_SCALE u8, q_textclass: Q_TEXTCLASS u8, q_textdisplay: Q_TEXTDISPLAY bool,
            d_textdisplay: D_TEXTDISPLAY u16; start: Shown; l_textdisplay: L_TEXTDISPLAY u16,
            t_textdisplay: T_TEXTDISPLAY u16; end: Shown; confirmed: Confirmed }
    };
}

/// When and where a text is shown, and how it is confirmed (packets 72 and 76; SUBSET-026, 7.4.2).
#[derive(Clone, Copy, Debug, PartialEq, Eq)]
pub struct TextFrame {
    q_scale: u8,
    q_textclass: u8,
    q_textdisplay: bool,
    d_textdisplay: u16,
    l_textdisplay: u16,
    t_textdisplay: u16,
    confirmed: Confirmed,
    start: Shown,
    end: Shown,
}

impl Model for TextFrame {
    ghost use Rattle.etcs_bodies.specs.Formats.{Is};
    ghost use Rattle.etcs_parts.specs.TextFrames.{TextFrame, text_frame_format};

    ghost Value = { TextFrame };

    ghost view = { λ s. s };

    ghost invariant = { Is text_frame_format };

    ghost inverse = { λ s. s };
}

impl TextFrame {
    ghost use Rattle.etcs_parts.specs.TextFrames.{text_frame_value, text_frame_fault};

    /// All of a text message but the text itself, returned exactly if none of the errors below applies. `start` and
    /// `end` are values already, and aren't checked again. Each argument is a variable of SUBSET-026, 7.5:
    ///
    /// - `q_scale`: Q_SCALE, the unit of the distances: 0 is 10 cm, 1 is 1 m, 2 is 10 m.
    /// - `q_textclass`: Q_TEXTCLASS, the class of the message, 0 to 3.
    /// - `q_textdisplay`: Q_TEXTDISPLAY, whether all conditions must hold for the display to begin and to end;
    ///   `false` is as soon as one does.
    /// - `d_textdisplay`: D_TEXTDISPLAY, the distance to where the display begins, in units of Q_SCALE, 0 to 32,767.
    /// - `start`: the mode and level in which it begins.
    /// - `l_textdisplay`: L_TEXTDISPLAY, the length of the display, in units of Q_SCALE, 0 to 32,767.
    /// - `t_textdisplay`: T_TEXTDISPLAY, its duration in seconds, 0 to 1,023; 1,023 is unlimited.
    /// - `end`: the mode and level in which it ends.
    /// - `q_textconfirm`: Q_TEXTCONFIRM, whether the driver must confirm, 0 to 3; 0 is no confirmation.
    /// - `confirm`: if the driver must, Q_CONFTEXTDISPLAY (`true` if his confirmation is one more condition for the end
    ///   of the display, `false` if it always ends it), and if the confirmation is reported, NID_TEXTMESSAGE (0 to
    ///   255), NID_C (0 to 1,023) and NID_RBC (0 to 16,383).
    ///
    /// # Errors
    ///
    /// The first of these that applies:
    ///
    /// - `NotAdmitted` with the first of Q_SCALE, Q_TEXTCLASS, D_TEXTDISPLAY, L_TEXTDISPLAY, T_TEXTDISPLAY and
    ///   Q_TEXTCONFIRM that doesn't admit its number.
    /// - `Guard(Q_TEXTCONFIRM)`: it is 0 and `confirm` is there, or it isn't 0 and `confirm` is missing.
    /// - `NotAdmitted` with NID_C, then with NID_RBC: the variable doesn't admit its number.
    pub fn new(
        q_scale: u8,
        q_textclass: u8,
        q_textdisplay: bool,
        d_textdisplay: u16,
        start: Shown,
        l_textdisplay: u16,
        t_textdisplay: u16,
        end: Shown,
        q_textconfirm: u8,
        confirm: Option<(bool, Option<(u8, u16, u16)>)>,
    ) -> Result<TextFrame, BuildFault>
        ensures ok { IfOk result (λ t. t ≡ text_frame_value q_scale q_textclass q_textdisplay d_textdisplay start l_textdisplay t_textdisplay end q_textconfirm confirm) }
        ensures fits { OnOk result (text_frame_fault (text_frame_value q_scale q_textclass q_textdisplay d_textdisplay start l_textdisplay t_textdisplay end q_textconfirm confirm) ≡ None) }
        ensures fault { IfErr result (λ e. text_frame_fault (text_frame_value q_scale q_textclass q_textdisplay d_textdisplay start l_textdisplay t_textdisplay end q_textconfirm confirm) ≡ Some e) }
    {
        fields!(build_part: q_scale, q_textclass, q_textdisplay, d_textdisplay; start;
            l_textdisplay, t_textdisplay; end; Confirmed::new(q_textconfirm, confirm)?)
    }

    /// The unit of the distances: Q_SCALE.
    pub fn q_scale(&self) -> u8
        ensures { result ≡ self.now.q_scale }
    {
        self.q_scale
    }

    /// The class of the message: Q_TEXTCLASS.
    pub fn q_textclass(&self) -> u8
        ensures { result ≡ self.now.q_textclass }
    {
        self.q_textclass
    }

    /// Whether all conditions must hold: Q_TEXTDISPLAY.
    pub fn q_textdisplay(&self) -> bool
        ensures { result ≡ self.now.q_textdisplay }
    {
        self.q_textdisplay
    }

    /// The distance to where the display begins, in units of Q_SCALE: D_TEXTDISPLAY.
    pub fn d_textdisplay(&self) -> u16
        ensures { result ≡ self.now.d_textdisplay }
    {
        self.d_textdisplay
    }

    /// The mode and level in which the display begins.
    pub fn start(&self) -> Shown
        ensures { result ≡ self.now.start }
    {
        self.start
    }

    /// The length of the display, in units of Q_SCALE: L_TEXTDISPLAY.
    pub fn l_textdisplay(&self) -> u16
        ensures { result ≡ self.now.l_textdisplay }
    {
        self.l_textdisplay
    }

    /// The duration of the display in seconds, 1,023 for unlimited: T_TEXTDISPLAY.
    pub fn t_textdisplay(&self) -> u16
        ensures { result ≡ self.now.t_textdisplay }
    {
        self.t_textdisplay
    }

    /// The mode and level in which the display ends.
    pub fn end(&self) -> Shown
        ensures { result ≡ self.now.end }
    {
        self.end
    }

    /// Whether the driver must confirm: Q_TEXTCONFIRM.
    pub fn q_textconfirm(&self) -> u8
        ensures { result ≡ self.now.confirmed.q_textconfirm }
    {
        self.confirmed.q_textconfirm
    }

    /// If he must, Q_CONFTEXTDISPLAY, and of a report NID_TEXTMESSAGE, NID_C and NID_RBC.
    pub fn confirm(&self) -> Option<(bool, Option<(u8, u16, u16)>)>
        ensures { result ≡ self.now.confirmed.confirm }
    {
        self.confirmed.confirm
    }
}

impl Variables for TextFrame {
    ghost use Rattle.etcs_bodies.specs.Formats.{reading};
    ghost use Rattle.etcs_parts.specs.TextFrames.{text_frame_format};

    ghost reading_of = { λ t. reading text_frame_format t };

    #[tactic(auto, using(crate::specs::laws::TextFrames::text_frame_bits, crate::specs::laws::Displays::shown_small))]
    fn bits(&self) -> usize {
        45 + self.start.bits() + self.end.bits() + self.confirmed.bits()
    }

    #[inline(always)]
    fn send<S: VarSink>(&self, out: &mut S) -> Result<(), AllocError> {
        fields!(send_fields: self, out)
    }
}

impl Part for TextFrame {
    ghost use Rattle.etcs_tables.specs.Rows.{text_frame};
    ghost use Rattle.etcs_bodies.specs.Formats.{from, Is};
    ghost use Rattle.etcs_parts.specs.TextFrames.{text_frame_format};
    ghost use Rattle.etcs_bodies.specs.laws.Formats.{codes_of};
    ghost use Rattle.etcs_parts.specs.laws.TextFrames.{text_frame_ok};

    ghost row = { text_frame };

    ghost read_from = { from text_frame_format };

    ghost is_part = { λ t. Is text_frame_format t };

    ghost codes = { codes_of text_frame_format text_frame_ok };

    fn holds(&self) {
        let _ = &self.q_scale;
    }

    #[inline(always)]
    fn take<L: Numbers>(_alloc: Global, numbers: &mut L) -> Result<Option<TextFrame>, AllocError> {
        Ok(TextFrame::read(numbers))
    }

    fn try_clone(&self, _alloc: Global) -> Result<TextFrame, AllocError> {
        Ok(*self)
    }
}

impl Plain for TextFrame {
    #[inline(always)]
    fn read<L: Numbers>(numbers: &mut L) -> Option<TextFrame> {
        fields!(read_fields: numbers)
    }
}

impl Exact for TextFrame {
    ghost use Rattle.etcs_parts.specs.laws.TextFrames.{text_frame_exact};

    ghost exact = { text_frame_exact };
}
