//! The sections of a movement authority, and what follows them.

ghost use Rattle.std.specs.Prelude.{◌≡◌, ◌≤◌, length, None, Some, IfOk, IfErr, OnOk};
ghost use Rattle.etcs_vars.specs.Reading.{spelled};
ghost use Rattle.etcs_bodies.specs.Formats.{Is, reading};
ghost use Rattle.etcs_parts.specs.Authorities.{authority_value, authority_fault, authority_format, groups_format};

use crate::authority_groups::{
    check_danger_point, check_end_timer, check_overlap, send_danger_point, send_end_timer,
    send_overlap, take_danger_point, take_end_timer, take_overlap,
};
use crate::section::Section;
use etcs_bodies::laws::Exact;
use etcs_bodies::{
    ListOf, Numbers, Part, Passing, check_count, clone_all, hold_all, pass_list, send_list,
    take_list, taken,
};
use etcs_vars::inner::{VarSink, Variables, bits_of_all};
use etcs_vars::{BuildFault, Var};
use std::alloc::{AllocError, Global};
use std::marker::Model;

/// The sections of a movement authority with its end section, its danger point and its overlap
/// (packets 12 and 15; SUBSET-026, 7.4 and 7.5).
///
/// Distances are in steps of Q_SCALE: 0 is 10 cm, 1 is 1 m, 2 is 10 m.
#[derive(Debug, Drop, PartialEq, Eq)]
pub struct Authority {
    end_timer: Option<(u16, u16)>,
    danger_point: Option<(u16, u8)>,
    overlap: Option<(u16, u16, u16, u8)>,
    end: Section,
    sections: ListOf<Section>,
}

impl Model for Authority {
    ghost use Rattle.etcs_bodies.specs.Formats.{Is};
    ghost use Rattle.etcs_parts.specs.Authorities.{Authority, authority_format};

    ghost Value = { Authority };

    ghost view = { λ s. s };

    ghost invariant = { Is authority_format };

    ghost inverse = { λ s. s };
}

impl Authority {
    /// The authority of these sections, the end section and what follows it, returned exactly if none of the errors
    /// below applies. Sections are values already, and aren't checked again.
    ///
    /// - `end_timer` is T_ENDTIMER in seconds (1023 is unlimited) and D_ENDTIMERSTARTLOC,
    ///   the distance from the timer's start to the end of the authority, in steps of Q_SCALE.
    /// - `danger_point` is D_DP, its distance from the end of the authority in steps of Q_SCALE,
    ///   and the release speed V_RELEASEDP in steps of 5 km/h: 0 to 120, 126 is calculated on board, 127
    ///   is the national value.
    /// - `overlap` is D_STARTOL, the distance from the timer's start to the end of the authority,
    ///   T_OL in seconds (1023 is unlimited), D_OL, the distance from the end of the
    ///   authority to the end of the overlap, and the release speed V_RELEASEOL, as above.
    ///
    /// # Errors
    ///
    /// The first of these that applies, with the list that was given:
    ///
    /// - `TooMany(N_ITER)`: there are more than 31 sections.
    /// - `NotAdmitted` with the first variable, in order, that doesn't admit its number: a distance above 32,767,
    ///   a time above 1,023, or a release speed that isn't one of those above.
    pub fn new(
        sections: Vec<Section>,
        end: Section,
        end_timer: Option<(u16, u16)>,
        danger_point: Option<(u16, u8)>,
        overlap: Option<(u16, u16, u16, u8)>,
    ) -> Result<Authority, (BuildFault, Vec<Section>)>
        ensures ok { IfOk result (λ a. a ≡ authority_value sections.items end end_timer danger_point overlap) }
        ensures fits { OnOk result (authority_fault (authority_value sections.items end end_timer danger_point overlap) ≡ None) }
        ensures fault { IfErr result (λ e. authority_fault (authority_value sections.items end end_timer danger_point overlap) ≡ Some e.0) }
        ensures back { IfErr result (λ e. e.1.items ≡ sections.items) }
    {
        match faultless(sections.as_slice(), &end, end_timer, danger_point, overlap) {
            Ok(()) => Ok(Authority {
                end_timer,
                danger_point,
                overlap,
                end,
                sections: ListOf::from_vec(sections),
            }),
            Err(fault) => Err((fault, sections)),
        }
    }

    /// The sections before the end section.
    pub fn sections(&self) -> &[Section]
        ensures { result.now ≡ self.now.sections }
    {
        self.sections.as_slice()
    }

    /// The end section.
    pub fn end(&self) -> Section
        ensures { result ≡ self.now.end }
    {
        self.end
    }

    /// T_ENDTIMER in seconds (1023 is unlimited) and D_ENDTIMERSTARTLOC, the distance from the timer's start to
    /// the end of the authority, in steps of Q_SCALE. `None` without an end timer.
    pub fn end_timer(&self) -> Option<(u16, u16)>
        ensures { result ≡ self.now.end_timer }
    {
        self.end_timer
    }

    /// D_DP, the danger point's distance from the end of the authority, in steps of Q_SCALE, and the release speed
    /// V_RELEASEDP in steps of 5 km/h; 126 is calculated on board, 127 is the national value. `None` without one.
    pub fn danger_point(&self) -> Option<(u16, u8)>
        ensures { result ≡ self.now.danger_point }
    {
        self.danger_point
    }

    /// D_STARTOL, the distance from the start of the overlap's timer to the end of the authority, T_OL in
    /// seconds (1023 is unlimited), D_OL, the distance to the end of the overlap, and the release
    /// speed V_RELEASEOL in steps of 5 km/h; 126 is calculated on board, 127 is the national value. Distances
    /// are in steps of Q_SCALE. `None` without an overlap.
    pub fn overlap(&self) -> Option<(u16, u16, u16, u8)>
        ensures { result ≡ self.now.overlap }
    {
        self.overlap
    }

    /// How many bits its groups after flags take.
    fn group_bits(&self) -> usize
        ensures bits { result ≡ length (spelled (reading groups_format (self.now.end_timer, (self.now.danger_point, self.now.overlap)))) }
        ensures small { result ≤ 97 }
    {
        let end_timer = if self.end_timer.is_some() { 26 } else { 1 };
        let danger_point = if self.danger_point.is_some() { 23 } else { 1 };
        let overlap = if self.overlap.is_some() { 48 } else { 1 };
        end_timer + danger_point + overlap
    }
}

/// The first fault of an authority of these parts.
fn faultless(
    sections: &[Section],
    end: &Section,
    end_timer: Option<(u16, u16)>,
    danger_point: Option<(u16, u8)>,
    overlap: Option<(u16, u16, u16, u8)>,
) -> Result<(), BuildFault>
    ensures ok { OnOk result (Is authority_format (authority_value sections.now end.now end_timer danger_point overlap)) }
    ensures fits { OnOk result (authority_fault (authority_value sections.now end.now end_timer danger_point overlap) ≡ None) }
    ensures fault { IfErr result (λ e. authority_fault (authority_value sections.now end.now end_timer danger_point overlap) ≡ Some e) }
{
    check_count(Var::N_ITER, sections.len())?;
    check_end_timer(end_timer)?;
    check_danger_point(danger_point)?;
    check_overlap(overlap)?;
    hold_all(sections);
    end.holds();
    Ok(())
}

impl Variables for Authority {
    ghost use Rattle.etcs_bodies.specs.Formats.{reading};
    ghost use Rattle.etcs_parts.specs.Authorities.{authority_format};

    ghost reading_of = { λ a. reading authority_format a };

    #[tactic(auto, using(crate::specs::laws::Authorities::authority_bits))]
    fn bits(&self) -> usize {
        5 + bits_of_all(self.sections.as_slice()) + self.end.bits() + self.group_bits()
    }

    fn send<S: VarSink>(&self, out: &mut S) -> Result<(), AllocError> {
        send_list(Var::N_ITER, self.sections.as_slice(), out)?;
        self.end.send_end(out)?;
        send_end_timer(self.end_timer, out)?;
        send_danger_point(self.danger_point, out)?;
        send_overlap(self.overlap, out)
    }
}

impl Part for Authority {
    ghost use Rattle.etcs_bodies.specs.Formats.{from, Is};
    ghost use Rattle.etcs_parts.specs.Authorities.{authority_format, authority_row};
    ghost use Rattle.etcs_bodies.specs.laws.Formats.{codes_of};
    ghost use Rattle.etcs_parts.specs.laws.Authorities.{authority_ok};

    ghost row = { authority_row };

    ghost read_from = { from authority_format };

    ghost is_part = { λ a. Is authority_format a };

    ghost codes = { codes_of authority_format authority_ok };

    fn holds(&self) {
        let _ = &self.end_timer;
    }

    fn take<L: Numbers>(alloc: Global, numbers: &mut L) -> Result<Option<Authority>, AllocError> {
        let sections = taken!(take_list(alloc, Var::N_ITER, numbers)?);
        let end = taken!(Section::end_from_numbers(numbers));
        let end_timer = taken!(take_end_timer(numbers));
        let danger_point = taken!(take_danger_point(numbers));
        let overlap = taken!(take_overlap(numbers));
        Ok(Some(Authority {
            end_timer,
            danger_point,
            overlap,
            end,
            sections: ListOf::from_vec(sections),
        }))
    }

    fn try_clone(&self, alloc: Global) -> Result<Authority, AllocError> {
        Ok(Authority {
            end_timer: self.end_timer,
            danger_point: self.danger_point,
            overlap: self.overlap,
            end: self.end,
            sections: ListOf::from_vec(clone_all(alloc, self.sections.as_slice())?),
        })
    }
}

impl Passing for Authority {
    #[inline(always)]
    fn pass<L: Numbers, S: VarSink>(numbers: &mut L, out: &mut S) -> Result<bool, AllocError> {
        if !pass_list::<Section, L, S>(Var::N_ITER, numbers, out)? {
            return Ok(false);
        }
        let Some(end) = Section::end_from_numbers(numbers) else {
            return Ok(false);
        };
        end.send_end(out)?;
        let Some(end_timer) = take_end_timer(numbers) else {
            return Ok(false);
        };
        send_end_timer(end_timer, out)?;
        let Some(danger_point) = take_danger_point(numbers) else {
            return Ok(false);
        };
        send_danger_point(danger_point, out)?;
        let Some(overlap) = take_overlap(numbers) else {
            return Ok(false);
        };
        send_overlap(overlap, out)?;
        Ok(true)
    }
}

impl Exact for Authority {
    ghost use Rattle.etcs_parts.specs.laws.Authorities.{authority_exact};

    ghost exact = { authority_exact };
}
