//! How a text is confirmed.

ghost use Rattle.std.specs.Prelude.{◌≡◌, None, Some, IfOk, IfErr, IfSome, IfNone, OnOk, OnErr, ◌≤◌};
ghost use Rattle.etcs_bodies.specs.Formats.{fault, Is, reading, from};
ghost use Rattle.etcs_parts.specs.TextFrames.{report_format, confirm_format, confirmed_format, confirmed_count};

use etcs_bodies::{Flag, Numbers, check, check_guard};
use etcs_vars::inner::VarSink;
use etcs_vars::{BuildFault, Var};
use std::alloc::AllocError;

/// Q_TEXTCONFIRM, and the confirmation if it isn't 0.
#[derive(Clone, Copy, Debug, PartialEq, Eq)]
pub(crate) struct Confirmed {
    pub(crate) q_textconfirm: u8,
    pub(crate) confirm: Option<(bool, Option<(u8, u16, u16)>)>,
}

impl Confirmed {
    /// Refuses a confirmation that can't follow Q_TEXTCONFIRM.
    pub(crate) fn new(
        q_textconfirm: u8,
        confirm: Option<(bool, Option<(u8, u16, u16)>)>,
    ) -> Result<Confirmed, BuildFault>
        ensures number { IfOk result (λ c. c.q_textconfirm ≡ q_textconfirm) }
        ensures confirm { IfOk result (λ c. c.confirm ≡ confirm) }
        ensures is { OnOk result (Is confirmed_format (q_textconfirm, confirm)) }
        ensures ok { OnOk result (fault confirmed_format (q_textconfirm, confirm) ≡ None) }
        ensures fault { IfErr result (λ e. fault confirmed_format (q_textconfirm, confirm) ≡ Some e) }
    {
        check(Var::Q_TEXTCONFIRM, u64::from(q_textconfirm))?;
        check_guard(Var::Q_TEXTCONFIRM, q_textconfirm > 0, confirm.is_some())?;
        if let Some((_, Some((message, country, centre)))) = confirm {
            check(Var::NID_TEXTMESSAGE, u64::from(message))?;
            check(Var::NID_C, u64::from(country))?;
            check(Var::NID_RBC, u64::from(centre))?;
        }
        Ok(Confirmed {
            q_textconfirm,
            confirm,
        })
    }

    /// A field of the frame: nothing is left to be checked.
    pub(crate) fn holds(&self) {}

    /// The confirmation that the numbers begin with.
    #[tactic(auto, using(etcs_bodies::specs::laws::Guards::guard_ok), unfolding(etcs_bodies::specs::Guards::guard_fault))]
    #[inline(always)]
    pub(crate) fn read<L: Numbers>(numbers: &mut L) -> Option<Confirmed>
        ensures part { IfSome result (λ c. Is confirmed_format (c.q_textconfirm, c.confirm)) }
        ensures from { IfSome result (λ c. from confirmed_format (L.left numbers.old) ≡ Some ((c.q_textconfirm, c.confirm), L.left numbers.new)) }
        ensures none { IfNone result (from confirmed_format (L.left numbers.old) ≡ None) }
    {
        let q_textconfirm = numbers.next(Var::Q_TEXTCONFIRM)? as u8;
        let confirm = if q_textconfirm > 0 {
            Some(next_confirm(numbers)?)
        } else {
            None
        };
        Some(Confirmed {
            q_textconfirm,
            confirm,
        })
    }

    /// Sends its variables.
    #[inline(always)]
    pub(crate) fn send<S: VarSink>(&self, out: &mut S) -> Result<(), AllocError>
        ensures ok { OnOk result (out.new ≡ S.with out.old (reading confirmed_format (self.now.q_textconfirm, self.now.confirm))) }
        ensures err { OnErr result (S.failed out.old out.new) }
    {
        match self.confirm {
            None => out.send(&[(Var::Q_TEXTCONFIRM, u64::from(self.q_textconfirm))]),
            Some((shown, None)) => out.send(&[
                (Var::Q_TEXTCONFIRM, u64::from(self.q_textconfirm)),
                (Var::Q_CONFTEXTDISPLAY, u64::from(shown)),
                (Var::Q_TEXTREPORT, 0),
            ]),
            Some((shown, Some((message, country, centre)))) => out.send(&[
                (Var::Q_TEXTCONFIRM, u64::from(self.q_textconfirm)),
                (Var::Q_CONFTEXTDISPLAY, u64::from(shown)),
                (Var::Q_TEXTREPORT, 1),
                (Var::NID_TEXTMESSAGE, u64::from(message)),
                (Var::NID_C, u64::from(country)),
                (Var::NID_RBC, u64::from(centre)),
            ]),
        }
    }

    /// How many bits it takes.
    pub(crate) fn bits(&self) -> usize
        ensures bits { result ≡ confirmed_count self.now.confirm }
        ensures small { result ≤ 36 }
    {
        match self.confirm {
            None => 2,
            Some((_, None)) => 4,
            Some((_, Some(_))) => 36,
        }
    }
}

/// The report that the numbers begin with.
#[inline(always)]
fn next_report<L: Numbers>(numbers: &mut L) -> Option<(u8, u16, u16)>
    ensures part { IfSome result (λ r. Is report_format r) }
    ensures from { IfSome result (λ r. from report_format (L.left numbers.old) ≡ Some (r, L.left numbers.new)) }
    ensures none { IfNone result (from report_format (L.left numbers.old) ≡ None) }
{
    let (message, (country, centre)) = numbers.run((
        Var::NID_TEXTMESSAGE,
        (Var::NID_C, Var::NID_RBC),
    ))?;
    Some((message as u8, country as u16, centre as u16))
}

/// The confirmation that the numbers begin with.
#[inline(always)]
fn next_confirm<L: Numbers>(numbers: &mut L) -> Option<(bool, Option<(u8, u16, u16)>)>
    ensures part { IfSome result (λ c. Is confirm_format c) }
    ensures from { IfSome result (λ c. from confirm_format (L.left numbers.old) ≡ Some (c, L.left numbers.new)) }
    ensures none { IfNone result (from confirm_format (L.left numbers.old) ≡ None) }
{
    let (q_conftextdisplay, reported) = numbers.run((
        Flag(Var::Q_CONFTEXTDISPLAY),
        Flag(Var::Q_TEXTREPORT),
    ))?;
    let report = if reported {
        Some(next_report(numbers)?)
    } else {
        None
    };
    Some((q_conftextdisplay, report))
}
