//! A section of a movement authority.

ghost use Rattle.std.specs.Prelude.{◌≡◌, None, Some, IfOk, IfErr, IfSome, IfNone, OnOk, OnErr};
ghost use Rattle.etcs_bodies.specs.Formats.{fault, Is, reading, from};
ghost use Rattle.etcs_parts.specs.Sections.{timer_format, times_format};
ghost use Rattle.etcs_bodies.specs.Codecs.{opened};

use crate::groups::{check_group, send_group, take_group};
use etcs_bodies::laws::Exact;
use etcs_bodies::{Flag, Numbers, Part, Plain, check};
use etcs_vars::inner::{VarSink, Variables};
use etcs_vars::{BuildFault, Var};
use std::alloc::{AllocError, Global};
use std::marker::Model;

/// The numbers of the timer of a section.
macro_rules! timer {
    ($then:ident: $($with:tt)*) => {
        $then! { { $($with)* }
            Q_SECTIONTIMER time: T_SECTIONTIMER u16, stop: D_SECTIONTIMERSTOPLOC u16 }
    };
}

/// A section of a movement authority (packets 12 and 15; SUBSET-026, 7.4 and 7.5).
///
/// The end section is one too, with its length in L_ENDSECTION. Distances are in steps of
/// Q_SCALE: 0 is 10 cm, 1 is 1 m, 2 is 10 m.
#[derive(Clone, Copy, Debug, PartialEq, Eq)]
pub struct Section {
    length: u16,
    timer: Option<(u16, u16)>,
}

impl Model for Section {
    ghost use Rattle.etcs_bodies.specs.Formats.{Is};
    ghost use Rattle.etcs_parts.specs.Sections.{Section, section_format};

    ghost Value = { Section };

    ghost view = { λ s. s };

    ghost invariant = { Is section_format };

    ghost inverse = { λ s. s };
}

impl Section {
    ghost use Rattle.etcs_bodies.specs.Formats.{Is};
    ghost use Rattle.etcs_parts.specs.Sections.{section_value, section_fault, section_format, end_format};

    /// A section of this length, in steps of Q_SCALE, returned exactly if none of the errors below applies.
    ///
    /// `timer` is T_SECTIONTIMER in seconds (1023 is unlimited) and
    /// D_SECTIONTIMERSTOPLOC, the distance from the section's beginning at which the timer stops, in
    /// steps of Q_SCALE.
    ///
    /// # Errors
    ///
    /// The first of these that applies:
    ///
    /// - `NotAdmitted(L_SECTION)`: the length is above 32,767, that of an end section too.
    /// - `NotAdmitted(T_SECTIONTIMER)`: the time is above 1,023.
    /// - `NotAdmitted(D_SECTIONTIMERSTOPLOC)`: the distance is above 32,767.
    pub fn new(length: u16, timer: Option<(u16, u16)>) -> Result<Section, BuildFault>
        ensures ok { IfOk result (λ s. s ≡ section_value length timer) }
        ensures fits { OnOk result (section_fault (section_value length timer) ≡ None) }
        ensures fault { IfErr result (λ e. section_fault (section_value length timer) ≡ Some e) }
    {
        check(Var::L_SECTION, u64::from(length))?;
        check_timer(timer)?;
        Ok(Section { length, timer })
    }

    /// The length, in steps of Q_SCALE.
    pub fn length(&self) -> u16
        ensures { result ≡ self.now.length }
    {
        self.length
    }

    /// T_SECTIONTIMER in seconds (1023 is unlimited) and D_SECTIONTIMERSTOPLOC, the distance at which the timer stops,
    /// in steps of Q_SCALE. `None` without a timer.
    pub fn timer(&self) -> Option<(u16, u16)>
        ensures { result ≡ self.now.timer }
    {
        self.timer
    }

    /// The end section that the numbers begin with.
    #[tactic(auto, using(etcs_bodies::specs::laws::Formats::same_number))]
    #[inline(always)]
    pub(crate) fn end_from_numbers<L: Numbers>(numbers: &mut L) -> Option<Section>
        ensures part { IfSome result (λ s. Is section_format s) }
        ensures from { IfSome result (λ s. from end_format (L.left numbers.old) ≡ Some (s, L.left numbers.new)) }
        ensures none { IfNone result (from end_format (L.left numbers.old) ≡ None) }
    {
        let (length, timed) = numbers.run((Var::L_ENDSECTION, Flag(Var::Q_SECTIONTIMER)))?;
        let timer = timer_after(timed, numbers)?;
        Some(Section {
            length: length as u16,
            timer,
        })
    }

    /// Sends its variables as those of the end section.
    #[inline(always)]
    pub(crate) fn send_end<S: VarSink>(&self, out: &mut S) -> Result<(), AllocError>
        ensures ok { OnOk result (out.new ≡ S.with out.old (reading end_format self.now)) }
        ensures err { OnErr result (S.failed out.old out.new) }
    {
        out.send(&[(Var::L_ENDSECTION, u64::from(self.length))])?;
        send_timer(self.timer, out)
    }
}

/// Refuses a timer that has a fault.
fn check_timer(timer: Option<(u16, u16)>) -> Result<(), BuildFault>
    ensures is { OnOk result (Is timer_format timer) }
    ensures ok { OnOk result (fault timer_format timer ≡ None) }
    ensures fault { IfErr result (λ e. fault timer_format timer ≡ Some e) }
{
    timer!(check_group: timer)
}

/// Sends the timer of a section, after its flag.
#[inline(always)]
fn send_timer<S: VarSink>(timer: Option<(u16, u16)>, out: &mut S) -> Result<(), AllocError>
    ensures ok { OnOk result (out.new ≡ S.with out.old (reading timer_format timer)) }
    ensures err { OnErr result (S.failed out.old out.new) }
{
    timer!(send_group: timer, out)
}

/// The timer that the numbers begin with, if its flag is set.
#[inline(always)]
fn timer_after<L: Numbers>(timed: bool, numbers: &mut L) -> Option<Option<(u16, u16)>>
    ensures part { IfSome result (λ t. Is timer_format t) }
    ensures from { IfSome result (λ t. opened (from times_format) timed (L.left numbers.old) ≡ Some (t, L.left numbers.new)) }
    ensures none { IfNone result (opened (from times_format) timed (L.left numbers.old) ≡ None) }
{
    timer!(take_group: numbers, timed)
}

impl Variables for Section {
    ghost use Rattle.etcs_bodies.specs.Formats.{reading};
    ghost use Rattle.etcs_parts.specs.Sections.{section_format};

    ghost reading_of = { λ p. reading section_format p };

    #[tactic(auto, using(crate::specs::laws::Sections::section_bits))]
    fn bits(&self) -> usize {
        16 + 25 * usize::from(self.timer.is_some())
    }

    #[inline(always)]
    fn send<S: VarSink>(&self, out: &mut S) -> Result<(), AllocError> {
        out.send(&[(Var::L_SECTION, u64::from(self.length))])?;
        send_timer(self.timer, out)
    }
}

impl Part for Section {
    ghost use Rattle.etcs_vars.specs.declared.var.Var.TheVariants.{L_SECTION};
    ghost use Rattle.etcs_tables.specs.Rows.{section_timer, ◌▸◌};
    ghost use Rattle.etcs_bodies.specs.Formats.{from, Is};
    ghost use Rattle.etcs_parts.specs.Sections.{section_format};
    ghost use Rattle.etcs_bodies.specs.laws.Formats.{codes_of};
    ghost use Rattle.etcs_parts.specs.laws.Sections.{section_ok};

    ghost row = { λ rest. L_SECTION ▸ section_timer rest };

    ghost read_from = { from section_format };

    ghost is_part = { λ p. Is section_format p };

    ghost codes = { codes_of section_format section_ok };

    fn holds(&self) {
        let _ = &self.length;
    }

    #[inline(always)]
    fn take<L: Numbers>(_alloc: Global, numbers: &mut L) -> Result<Option<Section>, AllocError> {
        Ok(Section::read(numbers))
    }

    fn try_clone(&self, _alloc: Global) -> Result<Section, AllocError> {
        Ok(*self)
    }
}

impl Plain for Section {
    #[inline(always)]
    fn read<L: Numbers>(numbers: &mut L) -> Option<Section> {
        let (length, timed) = numbers.run((Var::L_SECTION, Flag(Var::Q_SECTIONTIMER)))?;
        let timer = timer_after(timed, numbers)?;
        Some(Section {
            length: length as u16,
            timer,
        })
    }
}

impl Exact for Section {
    ghost use Rattle.etcs_bodies.specs.laws.Formats.{exact_of};
    ghost use Rattle.etcs_parts.specs.Sections.{section_format};
    ghost use Rattle.etcs_parts.specs.laws.Sections.{section_ok};

    ghost exact = { exact_of section_format section_ok };
}
