//! The groups after flags of a movement authority: the end section's timer, the danger point and the
//! overlap.

ghost use Rattle.std.specs.Prelude.{◌≡◌, None, Some, IfErr, IfSome, IfNone, OnOk, OnErr};
ghost use Rattle.etcs_bodies.specs.Formats.{fault, Is, reading, from};
ghost use Rattle.etcs_parts.specs.Authorities.{end_timer_format, danger_format, overlap_format};

use crate::groups::{check_group, send_group, take_group};
use etcs_bodies::{Numbers, check};
use etcs_vars::inner::VarSink;
use etcs_vars::{BuildFault, Var};
use std::alloc::AllocError;

/// The numbers of the timer of the end section.
macro_rules! end_timer {
    ($then:ident: $($with:tt)*) => {
        $then! { { $($with)* } Q_ENDTIMER time: T_ENDTIMER u16, start: D_ENDTIMERSTARTLOC u16 }
    };
}

/// The numbers of a danger point.
macro_rules! danger_point {
    ($then:ident: $($with:tt)*) => {
        $then! { { $($with)* } Q_DANGERPOINT distance: D_DP u16, speed: V_RELEASEDP u8 }
    };
}

/// The numbers of an overlap.
macro_rules! overlap {
    ($then:ident: $($with:tt)*) => {
        $then! { { $($with)* }
            Q_OVERLAP start: D_STARTOL u16, time: T_OL u16, distance: D_OL u16, speed: V_RELEASEOL u8 }
    };
}

/// Refuses a timer of the end section that has a fault.
pub(crate) fn check_end_timer(end_timer: Option<(u16, u16)>) -> Result<(), BuildFault>
    ensures is { OnOk result (Is end_timer_format end_timer) }
    ensures ok { OnOk result (fault end_timer_format end_timer ≡ None) }
    ensures fault { IfErr result (λ e. fault end_timer_format end_timer ≡ Some e) }
{
    end_timer!(check_group: end_timer)
}

/// Sends the timer of the end section, after its flag.
#[inline(always)]
pub(crate) fn send_end_timer<S: VarSink>(
    end_timer: Option<(u16, u16)>,
    out: &mut S,
) -> Result<(), AllocError>
    ensures ok { OnOk result (out.new ≡ S.with out.old (reading end_timer_format end_timer)) }
    ensures err { OnErr result (S.failed out.old out.new) }
{
    end_timer!(send_group: end_timer, out)
}

/// The timer of the end section that the numbers begin with, after its flag.
#[inline(always)]
pub(crate) fn take_end_timer<L: Numbers>(numbers: &mut L) -> Option<Option<(u16, u16)>>
    ensures part { IfSome result (λ t. Is end_timer_format t) }
    ensures from { IfSome result (λ t. from end_timer_format (L.left numbers.old) ≡ Some (t, L.left numbers.new)) }
    ensures none { IfNone result (from end_timer_format (L.left numbers.old) ≡ None) }
{
    end_timer!(take_group: numbers, numbers.flag(Var::Q_ENDTIMER)?)
}

/// Refuses a danger point that has a fault.
pub(crate) fn check_danger_point(danger_point: Option<(u16, u8)>) -> Result<(), BuildFault>
    ensures is { OnOk result (Is danger_format danger_point) }
    ensures ok { OnOk result (fault danger_format danger_point ≡ None) }
    ensures fault { IfErr result (λ e. fault danger_format danger_point ≡ Some e) }
{
    danger_point!(check_group: danger_point)
}

/// Sends the danger point, after its flag.
#[inline(always)]
pub(crate) fn send_danger_point<S: VarSink>(
    danger_point: Option<(u16, u8)>,
    out: &mut S,
) -> Result<(), AllocError>
    ensures ok { OnOk result (out.new ≡ S.with out.old (reading danger_format danger_point)) }
    ensures err { OnErr result (S.failed out.old out.new) }
{
    danger_point!(send_group: danger_point, out)
}

/// The danger point that the numbers begin with, after its flag.
#[inline(always)]
pub(crate) fn take_danger_point<L: Numbers>(numbers: &mut L) -> Option<Option<(u16, u8)>>
    ensures part { IfSome result (λ p. Is danger_format p) }
    ensures from { IfSome result (λ p. from danger_format (L.left numbers.old) ≡ Some (p, L.left numbers.new)) }
    ensures none { IfNone result (from danger_format (L.left numbers.old) ≡ None) }
{
    danger_point!(take_group: numbers, numbers.flag(Var::Q_DANGERPOINT)?)
}

/// Refuses an overlap that has a fault.
pub(crate) fn check_overlap(overlap: Option<(u16, u16, u16, u8)>) -> Result<(), BuildFault>
    ensures is { OnOk result (Is overlap_format overlap) }
    ensures ok { OnOk result (fault overlap_format overlap ≡ None) }
    ensures fault { IfErr result (λ e. fault overlap_format overlap ≡ Some e) }
{
    overlap!(check_group: overlap)
}

/// Sends the overlap, after its flag.
#[inline(always)]
pub(crate) fn send_overlap<S: VarSink>(
    overlap: Option<(u16, u16, u16, u8)>,
    out: &mut S,
) -> Result<(), AllocError>
    ensures ok { OnOk result (out.new ≡ S.with out.old (reading overlap_format overlap)) }
    ensures err { OnErr result (S.failed out.old out.new) }
{
    overlap!(send_group: overlap, out)
}

/// The overlap that the numbers begin with, after its flag.
#[inline(always)]
pub(crate) fn take_overlap<L: Numbers>(numbers: &mut L) -> Option<Option<(u16, u16, u16, u8)>>
    ensures part { IfSome result (λ o. Is overlap_format o) }
    ensures from { IfSome result (λ o. from overlap_format (L.left numbers.old) ≡ Some (o, L.left numbers.new)) }
    ensures none { IfNone result (from overlap_format (L.left numbers.old) ≡ None) }
{
    overlap!(take_group: numbers, numbers.flag(Var::Q_OVERLAP)?)
}
