//! The header.

ghost use Rattle.std.specs.Prelude.{◌≡◌, ℕ, Some, None, OnOk, IfOk, IfErr};
ghost use Rattle.etcs_telegram.specs.Headers.{header_fault, IsHeaderNumbers};
ghost use Rattle.etcs_telegram.specs.Telegrams.{header_of};

use etcs_vars::{BuildFault, Var, check};
use std::marker::Model;

/// A telegram's header of 50 bits (SUBSET-026, 8).
#[derive(Clone, Copy, Debug, PartialEq, Eq)]
pub struct Header {
    m_version: u8,
    n_pig: u8,
    n_total: u8,
    m_dup: u8,
    m_mcount: u8,
    nid_c: u16,
    nid_bg: u16,
    q_link: bool,
}

impl Model for Header {
    ghost use Rattle.std.specs.Prelude.{◌≡◌, None};
    ghost use Rattle.etcs_telegram.specs.Telegrams.{HeaderValue};
    ghost use Rattle.etcs_telegram.specs.Headers.{header_fault};

    ghost Value = { HeaderValue };

    ghost view = { λ h. record { m_version = h.m_version; n_pig = h.n_pig; n_total = h.n_total; m_dup = h.m_dup; m_mcount = h.m_mcount; nid_c = h.nid_c; nid_bg = h.nid_bg; q_link = h.q_link } };

    ghost invariant = { λ h. header_fault h.m_version h.n_pig h.n_total h.m_dup h.m_mcount h.nid_c h.nid_bg ≡ None };

    ghost inverse = { λ h. record { m_version = h.m_version; n_pig = h.n_pig; n_total = h.n_total; m_dup = h.m_dup; m_mcount = h.m_mcount; nid_c = h.nid_c; nid_bg = h.nid_bg; q_link = h.q_link } };
}

impl Header {
    ghost use Rattle.etcs_vars.specs.Reading.{IsAdmitted};
    ghost use Rattle.etcs_telegram.specs.Telegrams.{header_reading};

    /// A header of these numbers. Succeeds exactly if each variable admits its number. Q_UPDOWN (1) and Q_MEDIA (0) are
    /// fixed.
    ///
    /// # Errors
    ///
    /// [`BuildFault::NotAdmitted`] with the first variable, in the order of the arguments, that doesn't admit its
    /// number.
    pub fn new(
        m_version: u8,
        n_pig: u8,
        n_total: u8,
        m_dup: u8,
        m_mcount: u8,
        nid_c: u16,
        nid_bg: u16,
        q_link: bool,
    ) -> Result<Header, BuildFault>
        ensures ok { OnOk result (header_fault m_version n_pig n_total m_dup m_mcount nid_c nid_bg ≡ None) }
        ensures parts { IfOk result (λ h. h ≡ record { m_version = m_version; n_pig = n_pig; n_total = n_total; m_dup = m_dup; m_mcount = m_mcount; nid_c = nid_c; nid_bg = nid_bg; q_link = q_link }) }
        ensures fault { IfErr result (λ e. header_fault m_version n_pig n_total m_dup m_mcount nid_c nid_bg ≡ Some e) }
    {
        check(Var::M_VERSION_HEADER, m_version as u64)?;
        check(Var::N_PIG, n_pig as u64)?;
        check(Var::N_TOTAL, n_total as u64)?;
        check(Var::M_DUP, m_dup as u64)?;
        check(Var::M_MCOUNT, m_mcount as u64)?;
        check(Var::NID_C, nid_c as u64)?;
        check(Var::NID_BG, nid_bg as u64)?;
        Ok(Header {
            m_version,
            n_pig,
            n_total,
            m_dup,
            m_mcount,
            nid_c,
            nid_bg,
            q_link,
        })
    }

    /// M_VERSION: 32 or 33.
    pub fn m_version(&self) -> u8
        ensures { result ≡ self.now.m_version }
    {
        self.m_version
    }

    /// N_PIG, the balise's position in its group: 0 to 7.
    pub fn n_pig(&self) -> u8
        ensures { result ≡ self.now.n_pig }
    {
        self.n_pig
    }

    /// N_TOTAL, the number of balises in the group less one: 0 to 7.
    pub fn n_total(&self) -> u8
        ensures { result ≡ self.now.n_total }
    {
        self.n_total
    }

    /// M_DUP, whether the balise is a duplicate of a neighbour: 0 to 2.
    pub fn m_dup(&self) -> u8
        ensures { result ≡ self.now.m_dup }
    {
        self.m_dup
    }

    /// M_MCOUNT, the message counter: 0 to 255.
    pub fn m_mcount(&self) -> u8
        ensures { result ≡ self.now.m_mcount }
    {
        self.m_mcount
    }

    /// NID_C, the country or region: 0 to 1023.
    pub fn nid_c(&self) -> u16
        ensures { result ≡ self.now.nid_c }
    {
        self.nid_c
    }

    /// NID_BG, the balise group: 0 to 16383.
    pub fn nid_bg(&self) -> u16
        ensures { result ≡ self.now.nid_bg }
    {
        self.nid_bg
    }

    /// Q_LINK, whether the group is linked.
    pub fn q_link(&self) -> bool
        ensures { result ≡ self.now.q_link }
    {
        self.q_link
    }

    /// For callers: the variables admit the header's numbers.
    pub(crate) fn admitted(&self)
        ensures { IsAdmitted (header_reading self.now) }
    {
        let _ = &self.m_version;
    }
}

/// The header that has these ten numbers, in the order of sending.
///
/// Requires exactly ten numbers, each admitted by its variable.
pub(crate) fn header_by(numbers: &[u64]) -> Header
    requires { IsHeaderNumbers numbers.now }
    ensures { result ≡ header_of numbers.now }
{
    Header {
        m_version: numbers[1] as u8,
        n_pig: numbers[3] as u8,
        n_total: numbers[4] as u8,
        m_dup: numbers[5] as u8,
        m_mcount: numbers[6] as u8,
        nid_c: numbers[7] as u16,
        nid_bg: numbers[8] as u16,
        q_link: numbers[9] == 1,
    }
}
