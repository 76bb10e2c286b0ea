//! Packets of a scale, a first entry and further ones.

ghost use Rattle.std.specs.Prelude.{◌≡◌, None, Some, OnOk, IfOk, IfErr};
ghost use Rattle.etcs_tables.specs.declared.row.Way.TheVariants.{ToTrain};
ghost use Rattle.etcs_tables.specs.Layouts.{whole};
ghost use Rattle.etcs_tables.specs.Rows.{row_to};
ghost use Rattle.etcs_grouped.specs.Chains.{chain_value, chain_fault, chain_row, too_long};

use etcs_bodies::laws::Exact;
use etcs_bodies::{Body, Entries, Entry, Numbers, Part, Passing, check_field, taken};
use etcs_tables::{ROW_LIMIT, Way};
use etcs_vars::inner::{VarSink, Variables};
use etcs_vars::{BuildFault, Var};
use std::alloc::{AllocError, Global};
use std::marker::Model;

/// An entry of packets that have a scale, a first entry and further ones, with their number.
pub trait Chained: Entry + Passing {
    ghost use Rattle.std.specs.Prelude.{ℕ};

    /// NID_PACKET of the packet.
    const PACKET: u8;

    ghost PACKET: { ℕ };

    ghost typed: { row_to ToTrain PACKET ≡ Some (chain_row Self.Part.row whole) };
}

/// A packet of a scale, a first entry and further ones, each a value of the entry's type: packet 5, 21, 27 or 80.
#[derive(Debug, Drop, PartialEq, Eq)]
pub struct Chain<E: Entry> {
    dir: u8,
    q_scale: u8,
    entries: Entries<E>,
}

impl<E: Entry> Model for Chain<E> {
    ghost use Rattle.etcs_grouped.specs.Chains.{ChainValue, chain_value, IsChain};

    ghost Value = { ChainValue E };

    ghost view = { λ s. chain_value s.dir s.q_scale s.entries.0 s.entries.1 };

    ghost invariant = { λ s. IsChain E.is_part E.MOST E.reading_of (chain_value s.dir s.q_scale s.entries.0 s.entries.1) };

    ghost inverse = { λ s. record { dir = s.dir; q_scale = s.q_scale; entries = (s.first, s.further) } };
}

impl<E: Entry> Chain<E> {
    /// Q_SCALE: the unit of all distances (0: 10 cm, 1: 1 m, 2: 10 m).
    pub fn q_scale(&self) -> u8
        ensures { result ≡ self.now.q_scale }
    {
        self.q_scale
    }

    /// The entries after the first.
    pub fn further(&self) -> &[E]
        ensures { result.now ≡ self.now.further }
    {
        self.entries.further()
    }

    /// The first entry.
    pub(crate) fn first_entry(&self) -> &E
        ensures { result.now ≡ self.now.first }
    {
        self.entries.first()
    }

    /// The packet of these entries, returned exactly if it has no fault; else the first fault, with the entries.
    pub(crate) fn build(
        dir: u8,
        q_scale: u8,
        first: E,
        further: Vec<E>,
    ) -> Result<Chain<E>, (BuildFault, E, Vec<E>)>
        ensures ok { IfOk result (λ p. p ≡ chain_value dir q_scale first further.items) }
        ensures none { IfOk result (λ p. chain_fault E.MOST E.reading_of (chain_value dir q_scale first further.items) ≡ None) }
        ensures fault { IfErr result (λ e. chain_fault E.MOST E.reading_of (chain_value dir q_scale first further.items) ≡ Some e.0) }
        ensures first { IfErr result (λ e. e.1 ≡ first) }
        ensures further { IfErr result (λ e. e.2.items ≡ further.items) }
    {
        check_field!([first, further] dir Q_DIR u8);
        check_field!([first, further] q_scale Q_SCALE u8);
        let entries = Entries::new(first, further)?;
        if let Err(fault) = check_length(dir, q_scale, &entries) {
            let (first, further) = entries.into_parts();
            return Err((fault, first, further));
        }
        Ok(Chain {
            dir,
            q_scale,
            entries,
        })
    }
}

/// Refuses entries that take more bits than L_PACKET can count.
#[tactic(auto, using(crate::specs::laws::Chains::surely_short, crate::specs::laws::Chains::short_enough, crate::specs::laws::Chains::not_short))]
fn check_length<E: Entry>(dir: u8, q_scale: u8, entries: &Entries<E>) -> Result<(), BuildFault>
    ensures ok { OnOk result (too_long E.MOST E.reading_of (chain_value dir q_scale entries.now.0 entries.now.1) ≡ None) }
    ensures fault { IfErr result (λ e. too_long E.MOST E.reading_of (chain_value dir q_scale entries.now.0 entries.now.1) ≡ Some e) }
{
    if E::MOST <= 255 {
        return Ok(());
    }
    if 2 + entries.bits() > ROW_LIMIT {
        return Err(BuildFault::TooLong);
    }
    Ok(())
}

impl<E: Entry> Variables for Chain<E> {
    ghost use Rattle.etcs_grouped.specs.Chains.{chain_reading};

    ghost reading_of = { λ p. chain_reading E.reading_of p };

    fn bits(&self) -> usize {
        2 + self.entries.bits()
    }

    fn send<S: VarSink>(&self, out: &mut S) -> Result<(), AllocError> {
        out.send(&[(Var::Q_SCALE, u64::from(self.q_scale))])?;
        self.entries.send(out)
    }
}

impl<E: Chained> Body for Chain<E> {
    ghost use Rattle.etcs_grouped.specs.Chains.{IsChain, chain_from};
    ghost use Rattle.etcs_grouped.specs.laws.Chains.{chain_codes};

    const NID: u8 = E::PACKET;

    const WAY: Way = Way::ToTrain;

    ghost NID = { E.PACKET };

    ghost WAY = { ToTrain };

    ghost direction = { λ p. p.dir };

    ghost is_value = { λ p. IsChain E.is_part E.MOST E.reading_of p };

    ghost read_from = { λ dir s. chain_from E.MOST E.reading_of E.read_from dir s };

    ghost codes = { chain_codes E.codes E.MOST E.most E.PACKET E.typed };

    fn q_dir(&self) -> u8 {
        self.dir
    }

    #[tactic(auto, using(etcs_bodies::specs::laws::Takes::number_ok), unfolding(etcs_bodies::specs::PacketCodes::directed_from, crate::specs::Chains::chain_from))]
    fn take<L: Numbers>(
        alloc: Global,
        dir: u8,
        numbers: &mut L,
    ) -> Result<Option<Self>, AllocError> {
        let q_scale = taken!(numbers.next(Var::Q_SCALE)) as u8;
        let entries = taken!(Entries::take(alloc, numbers)?);
        if check_length(dir, q_scale, &entries).is_err() {
            return Ok(None);
        }
        Ok(Some(Chain {
            dir,
            q_scale,
            entries,
        }))
    }

    #[inline(always)]
    fn pass<L: Numbers, S: VarSink>(numbers: &mut L, out: &mut S) -> Result<bool, AllocError> {
        let Some(q_scale) = numbers.next(Var::Q_SCALE) else {
            return Ok(false);
        };
        out.send(&[(Var::Q_SCALE, q_scale)])?;
        Entries::<E>::pass(numbers, out)
    }

    fn copy(&self, alloc: Global) -> Result<Chain<E>, AllocError> {
        Ok(Chain {
            dir: self.dir,
            q_scale: self.q_scale,
            entries: self.entries.try_clone(alloc)?,
        })
    }
}

impl<E: Entry + Exact> Exact for Chain<E> {
    ghost use Rattle.etcs_grouped.specs.laws.Chains.{chain_exact};

    ghost exact = { chain_exact E.exact };
}
