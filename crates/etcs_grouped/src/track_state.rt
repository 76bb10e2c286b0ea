//! The state of the track that packet 68 gives.

ghost use Rattle.std.specs.Prelude.{◌≡◌, ◌≤◌, None, Some, false, length, OnOk, OnErr, IfOk, IfErr, IfSome, IfNone, IsTrue};
ghost use Rattle.etcs_vars.specs.Reading.{spelled};
ghost use Rattle.etcs_bodies.specs.Passing.{Passed, Begun};
ghost use Rattle.etcs_bodies.specs.Formats.{fault, Is, reading, from, equal};
ghost use Rattle.etcs_grouped.specs.TrackConditions.{state_of, state_format};

use etcs_bodies::{
    Entries, Numbers, Part, Passing, check, check_count, clone_all, hold_all, send_list, take_list,
    taken,
};
use etcs_parts::Condition;
use etcs_vars::inner::{VarSink, Variables};
use etcs_vars::{BuildFault, Var};
use std::alloc::{AllocError, Global};

/// The state of the track that packet 68 gives (SUBSET-026, 7.4.2). Distances are in steps of Q_SCALE. Contracts see
/// its distance or its conditions, and not the memory that holds them.
#[derive(Debug, Drop, PartialEq, Eq)]
pub enum TrackState {
    /// The initial states are resumed from this distance on, D_TRACKINIT.
    Initial(u16),
    /// A first track condition and further ones, each at its distance from the one before.
    Conditions(Condition, Vec<Condition>),
}

/// Refuses a distance that is too large, or too many conditions.
pub(crate) fn check_state(state: &TrackState) -> Result<(), BuildFault>
    ensures ok { OnOk result (Is state_format (state_of state.now)) }
    ensures none { OnOk result (fault state_format (state_of state.now) ≡ None) }
    ensures fault { IfErr result (λ e. fault state_format (state_of state.now) ≡ Some e) }
{
    match state {
        TrackState::Initial(distance) => check(Var::D_TRACKINIT, u64::from(*distance)),
        TrackState::Conditions(first, further) => {
            check_count(Var::N_ITER, further.len())?;
            first.holds();
            hold_all(further.as_slice());
            Ok(())
        }
    }
}

/// How many bits its variables take.
#[tactic(auto, using(crate::specs::laws::TrackConditions::initial_bits, crate::specs::laws::TrackConditions::condition_bits, crate::specs::laws::TrackConditions::few_conditions))]
pub(crate) fn state_bits(state: &TrackState) -> usize
    requires { Is state_format (state_of state.now) }
    ensures bits { result ≡ length (spelled (reading state_format (state_of state.now))) }
    ensures small { result ≤ 1094 }
{
    match state {
        TrackState::Initial(_) => 16,
        TrackState::Conditions(_, further) => 40 + 34 * further.len(),
    }
}

/// Sends its variables, in order.
pub(crate) fn send_state<S: VarSink>(state: &TrackState, out: &mut S) -> Result<(), AllocError>
    ensures ok { OnOk result (out.new ≡ S.with out.old (reading state_format (state_of state.now))) }
    ensures err { OnErr result (S.failed out.old out.new) }
{
    match state {
        TrackState::Initial(distance) => out.send(&[
            (Var::Q_TRACKINIT, 1),
            (Var::D_TRACKINIT, u64::from(*distance)),
        ]),
        TrackState::Conditions(first, further) => {
            out.send(&[(Var::Q_TRACKINIT, 0)])?;
            first.send(out)?;
            send_list(Var::N_ITER, further.as_slice(), out)
        }
    }
}

/// Takes what the numbers begin with, if they begin with a state.
pub(crate) fn take_state<L: Numbers>(
    alloc: Global,
    numbers: &mut L,
) -> Result<Option<TrackState>, AllocError>
    ensures is { IfOk result (λ o. IfSome o (λ s. Is state_format (state_of s))) }
    ensures from { IfOk result (λ o. IfSome o (λ s. from state_format (L.left numbers.old) ≡ Some (state_of s, L.left numbers.new))) }
    ensures none { IfOk result (λ o. IfNone o (from state_format (L.left numbers.old) ≡ None)) }
{
    let initial = taken!(numbers.flag(Var::Q_TRACKINIT));
    if initial {
        let distance = taken!(numbers.next(Var::D_TRACKINIT));
        return Ok(Some(TrackState::Initial(distance as u16)));
    }
    let first = taken!(Condition::take(alloc, numbers)?);
    let further = taken!(take_list(alloc, Var::N_ITER, numbers)?);
    Ok(Some(TrackState::Conditions(first, further)))
}

/// Sends the variables of the state that the numbers begin with, and returns whether they begin with one.
#[inline(always)]
pub(crate) fn pass_state<L: Numbers, S: VarSink>(
    numbers: &mut L,
    out: &mut S,
) -> Result<bool, AllocError>
    ensures passed { IfOk result (λ b. IsTrue b → Passed (Is state_format) (reading state_format) S.with (L.left numbers.old) (L.left numbers.new) out.old out.new) }
    ensures begun { IfOk result (λ b. b ≡ false → Begun S.with out.old out.new) }
    ensures err { OnErr result (S.failed out.old out.new) }
{
    let Some(initial) = numbers.flag(Var::Q_TRACKINIT) else {
        return Ok(false);
    };
    if initial {
        let Some(distance) = numbers.next(Var::D_TRACKINIT) else {
            return Ok(false);
        };
        out.send(&[(Var::Q_TRACKINIT, 1), (Var::D_TRACKINIT, distance)])?;
        return Ok(true);
    }
    out.send(&[(Var::Q_TRACKINIT, 0)])?;
    Entries::<Condition>::pass(numbers, out)
}

/// An equal state.
pub(crate) fn copy_state(alloc: Global, state: &TrackState) -> Result<TrackState, AllocError>
    ensures { IfOk result (λ s. state_of s ≡ state_of state.now) }
{
    Ok(match state {
        TrackState::Initial(distance) => TrackState::Initial(*distance),
        TrackState::Conditions(first, further) => {
            TrackState::Conditions(*first, clone_all(alloc, further.as_slice())?)
        }
    })
}

/// Whether both have the same distance, or the same conditions.
pub(crate) fn same_state(first: &TrackState, second: &TrackState) -> bool
    ensures { result ≡ equal state_format (state_of first.now) (state_of second.now) }
{
    match (first, second) {
        (TrackState::Initial(a), TrackState::Initial(b)) => a == b,
        (TrackState::Conditions(a, more), TrackState::Conditions(b, others)) => {
            a == b && more == others
        }
        _ => false,
    }
}
