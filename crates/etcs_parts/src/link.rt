//! A linked balise group.

ghost use Rattle.std.specs.Prelude.{◌≡◌, None, Some, IfOk, IfErr, OnOk};

use crate::balise_at::BaliseAt;
use etcs_bodies::laws::Exact;
use etcs_bodies::{Entry, Flag, Numbers, Part, Plain, build_part, send_fields};
use etcs_vars::inner::{VarSink, Variables};
use etcs_vars::{BuildFault, Var};
use std::alloc::{AllocError, Global};
use std::marker::Model;

/// Its fields in the order of its row.
macro_rules! fields {
    ($then:ident: $($with:tt)*) => {
        $then! { { $($with)* }
            d_link: D_LINK u16; balise: BaliseAt; q_linkorientation: Q_LINKORIENTATION bool,
            q_linkreaction: Q_LINKREACTION u8, q_locacc: Q_LOCACC u8 }
    };
}

/// A linked balise group (packet 5; SUBSET-026, 7.4 and 7.5).
#[derive(Clone, Copy, Debug, PartialEq, Eq)]
pub struct Link {
    d_link: u16,
    balise: BaliseAt,
    q_linkorientation: bool,
    q_linkreaction: u8,
    q_locacc: u8,
}

impl Model for Link {
    ghost use Rattle.etcs_bodies.specs.Formats.{Is};
    ghost use Rattle.etcs_parts.specs.Links.{Link, link_format};

    ghost Value = { Link };

    ghost view = { λ s. s };

    ghost invariant = { Is link_format };

    ghost inverse = { λ s. s };
}

impl Link {
    ghost use Rattle.etcs_parts.specs.Links.{link_value, link_fault};

    /// The group `d_link` after the one before, in steps of Q_SCALE; returned exactly if none of the errors below
    /// applies. `nid_c` is given if its country or region isn't that of the group before. `q_linkorientation` is `true`
    /// if the train passes it in its nominal direction, `q_linkreaction` what the train does if it isn't found (0 train
    /// trip, 1 service brake, 2 nothing), `q_locacc` how exactly it is placed, in metres.
    ///
    /// # Errors
    ///
    /// `NotAdmitted` with the first of D_LINK (15 bits), NID_C (10), NID_BG (14), Q_LINKREACTION (0 to 2) and
    /// Q_LOCACC (6) that doesn't admit its number.
    pub fn new(
        d_link: u16,
        nid_c: Option<u16>,
        nid_bg: u16,
        q_linkorientation: bool,
        q_linkreaction: u8,
        q_locacc: u8,
    ) -> Result<Link, BuildFault>
        ensures ok { IfOk result (λ l. l ≡ link_value d_link nid_c nid_bg q_linkorientation q_linkreaction q_locacc) }
        ensures fits { OnOk result (link_fault (link_value d_link nid_c nid_bg q_linkorientation q_linkreaction q_locacc) ≡ None) }
        ensures fault { IfErr result (λ e. link_fault (link_value d_link nid_c nid_bg q_linkorientation q_linkreaction q_locacc) ≡ Some e) }
    {
        fields!(build_part: d_link; BaliseAt::new(nid_c, nid_bg)?; q_linkorientation, q_linkreaction, q_locacc)
    }

    /// The distance to the group, in steps of Q_SCALE from the one before.
    pub fn d_link(&self) -> u16
        ensures { result ≡ self.now.d_link }
    {
        self.d_link
    }

    /// The group's country or region, if it isn't that of the group before.
    pub fn nid_c(&self) -> Option<u16>
        ensures { result ≡ self.now.balise.nid_c }
    {
        self.balise.nid_c()
    }

    /// The group within its country or region.
    pub fn nid_bg(&self) -> u16
        ensures { result ≡ self.now.balise.nid_bg }
    {
        self.balise.nid_bg()
    }

    /// Whether the train passes the group in its nominal direction.
    pub fn q_linkorientation(&self) -> bool
        ensures { result ≡ self.now.q_linkorientation }
    {
        self.q_linkorientation
    }

    /// What the train does if the group isn't found: 0 train trip, 1 service brake, 2 nothing.
    pub fn q_linkreaction(&self) -> u8
        ensures { result ≡ self.now.q_linkreaction }
    {
        self.q_linkreaction
    }

    /// How exactly the group is placed, in metres.
    pub fn q_locacc(&self) -> u8
        ensures { result ≡ self.now.q_locacc }
    {
        self.q_locacc
    }
}

impl Variables for Link {
    ghost use Rattle.etcs_bodies.specs.Formats.{reading};
    ghost use Rattle.etcs_parts.specs.Links.{link_format};

    ghost reading_of = { λ l. reading link_format l };

    #[tactic(auto, using(crate::specs::laws::Links::link_bits, crate::specs::laws::BalisesAt::balise_at_bits, crate::specs::laws::Flags::at_most_one))]
    fn bits(&self) -> usize {
        24 + self.balise.bits()
    }

    #[inline(always)]
    fn send<S: VarSink>(&self, out: &mut S) -> Result<(), AllocError> {
        fields!(send_fields: self, out)
    }
}

impl Part for Link {
    ghost use Rattle.etcs_tables.specs.Rows.{link};
    ghost use Rattle.etcs_bodies.specs.Formats.{from, Is};
    ghost use Rattle.etcs_parts.specs.Links.{link_format};
    ghost use Rattle.etcs_bodies.specs.laws.Formats.{codes_of};
    ghost use Rattle.etcs_parts.specs.laws.Links.{link_ok};

    ghost row = { link };

    ghost read_from = { from link_format };

    ghost is_part = { λ l. Is link_format l };

    ghost codes = { codes_of link_format link_ok };

    fn holds(&self) {
        let _ = &self.d_link;
    }

    #[inline(always)]
    fn take<L: Numbers>(_alloc: Global, numbers: &mut L) -> Result<Option<Link>, AllocError> {
        Ok(Link::read(numbers))
    }

    fn try_clone(&self, _alloc: Global) -> Result<Link, AllocError> {
        Ok(*self)
    }
}

impl Plain for Link {
    #[inline(always)]
    fn read<L: Numbers>(numbers: &mut L) -> Option<Link> {
        let (d_link, far) = numbers.run((Var::D_LINK, Flag(Var::Q_NEWCOUNTRY)))?;
        let beyond = (
            Flag(Var::Q_LINKORIENTATION),
            (Var::Q_LINKREACTION, Var::Q_LOCACC),
        );
        let (nid_c, (nid_bg, (q_linkorientation, (q_linkreaction, q_locacc)))) = if far {
            let (country, rest) = numbers.run((Var::NID_C, (Var::NID_BG, beyond)))?;
            (Some(country as u16), rest)
        } else {
            (None, numbers.run((Var::NID_BG, beyond))?)
        };
        Some(Link {
            d_link: d_link as u16,
            balise: BaliseAt::of(nid_c, nid_bg as u16),
            q_linkorientation,
            q_linkreaction: q_linkreaction as u8,
            q_locacc: q_locacc as u8,
        })
    }
}

impl Entry for Link {
    ghost use Rattle.std.specs.Prelude.{refl};
    ghost use Rattle.etcs_bodies.specs.laws.Formats.{at_most};
    ghost use Rattle.etcs_parts.specs.Links.{link_format};

    const MOST: usize = 49;

    ghost MOST = { 49 };

    ghost most = { λ p h. at_most link_format p h };

    ghost short = { refl };
}

impl Exact for Link {
    ghost use Rattle.etcs_parts.specs.laws.Links.{link_exact};

    ghost exact = { link_exact };
}
