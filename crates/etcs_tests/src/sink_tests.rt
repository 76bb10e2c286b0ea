//! A sink that is full.

use etcs_fakes::Checks;
use etcs_packets::{Flat, Packet, parts};
use etcs_vars::Var;
use etcs_vars::inner::VarSink;
use std::alloc::{AllocError, Global};
use std::marker::Model;
use std::test::Fail;

/// What was sent, in order, of which it takes only this many more.
#[derive(Drop)]
struct Few {
    pairs: Vec<(Var, u64)>,
    room: usize,
}

impl Few {
    fn new(alloc: Global, room: usize) -> Few {
        Few {
            pairs: Vec::new(alloc),
            room,
        }
    }

    /// Whether just these were taken.
    fn has(&self, pairs: &[(Var, u64)]) -> bool {
        self.pairs.as_slice() == pairs
    }
}

impl Model for Few {
    ghost use Rattle.etcs_vars.specs.Reading.{Reading};

    ghost Value = { Reading };

    ghost view = { λ s. s.pairs.items };
}

impl VarSink for Few {
    ghost use Rattle.std.specs.Prelude.{◌++◌};
    ghost use Rattle.std.proofs.Common.{append_assoc, append-nil, sym};

    ghost with = { λ s r. s ++ r };

    ghost failed = { λ s t. Unit {0} };

    ghost with_none = { append-nil };

    ghost with_both = { λ s a b. sym (append_assoc s a b) };

    ghost failed_after = { λ s a t h. tt };

    fn send(&mut self, sent: &[(Var, u64)]) -> Result<(), AllocError> {
        if sent.len() > self.room {
            return Err(AllocError);
        }
        self.room -= sent.len();
        self.pairs.extend_from_slice(sent)
    }
}

/// Checks that a sink with this much room refuses a packet, after it took these variables of it.
fn check_full(
    checks: &mut Checks,
    alloc: Global,
    packet: &Packet,
    room: usize,
    taken: &[(Var, u64)],
) {
    let mut few = Few::new(alloc, room);
    let sent = parts::send(packet, &mut few);
    checks.check(sent.is_err(), "a packet in too little room");
    checks.check(few.has(taken), "other variables");
}

/// The sink's refusal is the packet's; it keeps what it took.
#[test]
fn a_sink_that_is_full(rt: HostRuntime) -> Result<(), Fail> {
    let (checks, alloc) = (&mut Checks::new(), rt.alloc());
    let marker = Packet::vbc_marker(63)?;
    let gradient = Packet::TsrGradient(Flat::<141>::new(2, &[1, 5])?);
    check_full(checks, alloc, &gradient, 1, &[(Var::Q_GDIR, 1)]);
    check_full(checks, alloc, &gradient, 0, &[]);
    check_full(checks, alloc, &marker, 0, &[]);
    assert_eq!(rt; checks.wrong(), None);
    Ok(())
}
