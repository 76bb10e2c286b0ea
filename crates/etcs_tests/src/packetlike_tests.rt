//! A packet of one variable, used through its bound.

use etcs_bodies::Packetlike;
use etcs_fakes::{Checks, starve};
use etcs_rows::laws::read_back;
use etcs_tables::Way;
use etcs_vars::Var;
use std::alloc::{AllocError, Global};
use std::marker::Model;

/// Packet 137: whether a train stops in staff responsible mode.
#[derive(Drop)]
struct StopInSr {
    dir: u8,
    q_srstop: u64,
}

impl Model for StopInSr {
    ghost use Rattle.std.specs.Prelude.{ℕ, IsTrue};
    ghost use Rattle.etcs_vars.specs.Vars.{admits};
    ghost use Rattle.etcs_vars.specs.declared.var.Var.TheVariants.{Q_DIR, Q_SRSTOP};

    ghost Value = { ℕ × ℕ };

    ghost view = { λ p. (p.dir, p.q_srstop) };

    ghost invariant = { λ p. IsTrue (admits Q_DIR p.dir) × IsTrue (admits Q_SRSTOP p.q_srstop) };
}

impl Packetlike for StopInSr {
    ghost use Rattle.std.specs.Prelude.{ℕ, [], ◌∷◌, ◌++◌, IsTrue, refl};
    ghost use Rattle.std.proofs.Common.{lit≤, rules};
    ghost use Rattle.etcs_bits.specs.Bits.{num};
    ghost use Rattle.etcs_vars.specs.Vars.{admits};
    ghost use Rattle.etcs_vars.specs.declared.var.Var.TheVariants.{Q_DIR, Q_SRSTOP};
    ghost use Rattle.etcs_tables.specs.declared.row.Way.TheVariants.{ToTrain};
    ghost use Rattle.etcs_tables.specs.Layouts.{Reads};
    ghost use Rattle.etcs_tables.specs.Rows.{stop_in_sr};

    const NID: u8 = 137;

    const WAY: Way = Way::ToTrain;

    ghost NID = { 137 };

    ghost WAY = { ToTrain };

    ghost direction = { λ p. p.0 };

    ghost fields_of = { λ p. p.1 ∷ [] };

    ghost is_value = { λ p. IsTrue (admits Q_DIR p.0) × IsTrue (admits Q_SRSTOP p.1) };

    ghost admitted = { λ p h. unfold Reads in unfold num in
        (stop_in_sr, refl, h.0, (num 1 p.1 ++ [], ((Q_SRSTOP, p.1) ∷ [], (p.1, [], h.1, refl, refl), refl, refl), lit≤ tt)) };

    ghost one_to_one = { λ p q h k d f. Prim.search rules };

    fn dir(&self) -> u8 {
        self.dir
    }

    fn fields(&self, out: &mut Vec<u64>) -> Result<(), AllocError> {
        out.push(self.q_srstop)?;
        Ok(())
    }

    fn from_fields(
        _alloc: Global,
        dir: u8,
        fields: &[u64],
    ) -> Result<Option<StopInSr>, AllocError> {
        let [q_srstop] = fields else {
            return Ok(None);
        };
        if !Var::Q_DIR.admits(u64::from(dir)) || !Var::Q_SRSTOP.admits(*q_srstop) {
            return Ok(None);
        }
        Ok(Some(StopInSr {
            dir,
            q_srstop: *q_srstop,
        }))
    }
}

/// Whether the packet that these make, if any, has them once it was read back.
fn makes<P: Packetlike + Drop>(
    alloc: Global,
    dir: u8,
    fields: &[u64],
) -> Result<Option<bool>, AllocError> {
    let Some(packet) = P::from_fields(alloc, dir, fields)? else {
        return Ok(None);
    };
    let Some(again) = read_back(alloc, &packet)? else {
        unreachable!()
    };
    let mut out = Vec::new(alloc);
    again.fields(&mut out)?;
    Ok(Some(again.dir() == dir && out.as_slice() == fields))
}

/// What makes no packet: a number or a direction that isn't admitted, no number, and one too many.
#[test]
fn stop_in_sr(rt: HostRuntime) {
    let (checks, alloc) = (&mut Checks::new(), rt.alloc());
    let is_type = StopInSr::NID == 137 && StopInSr::WAY == Way::ToTrain;
    checks.check(is_type, "another type");
    for (dir, fields, wanted) in [
        (1, [1].as_slice(), Some(true)),
        (1, [2].as_slice(), None),
        (3, [1].as_slice(), None),
        (1, [].as_slice(), None),
        (1, [1, 1].as_slice(), None),
    ] {
        let made = makes::<StopInSr>(alloc, dir, fields);
        checks.check(made == Ok(wanted), "another packet");
    }
    let held = starve(alloc);
    let refused = makes::<StopInSr>(alloc, 1, &[1]).is_err();
    checks.check(held.is_ok(), "no memory to hold");
    drop(held);
    checks.check(refused, "made without memory");
    assert_eq!(rt; checks.wrong(), None);
}
