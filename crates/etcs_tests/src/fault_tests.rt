//! Texts of faults, and a name in a room.

use etcs_fakes::Checks;
use etcs_vars::{BuildFault, Fed, ReadFault, Var};
use std::alloc::AllocError;

/// Checks a text.
fn check_text(checks: &mut Checks, found: Result<String, AllocError>, wanted: &'static str) {
    match found.as_ref() {
        Ok(text) => checks.check(text.as_str() == wanted, wanted),
        Err(_) => checks.check(false, "no memory"),
    }
}

#[test]
fn texts(rt: HostRuntime) {
    let (checks, alloc) = (&mut Checks::new(), rt.alloc());
    for (fault, text) in &BUILD_FAULTS {
        check_text(checks, fault.to_string(alloc), text);
    }
    let (bit, var) = (215, Var::PAD);
    for (fault, text) in [
        (ReadFault::Refused { bit, var }, "refused at bit 215, PAD"),
        (ReadFault::Ended, "the value was whole before"),
        (ReadFault::Memory, "out of memory"),
    ] {
        check_text(checks, fault.to_string(alloc), text);
    }
    let padded = format!(in alloc; "{:>5}", Var::PAD);
    check_text(checks, padded, "  PAD");
    checks.check(Fed::More != Fed::Done { taken: 0 }, "a piece");
    assert_eq!(rt; checks.wrong(), None);
}

static BUILD_FAULTS: [(BuildFault, &str); 7] = [
    (
        BuildFault::NotAdmitted(Var::M_VERSION_HEADER),
        "M_VERSION doesn't admit the number",
    ),
    (
        BuildFault::Guard(Var::M_LEVELTR),
        "M_LEVELTR and the group that it guards don't agree",
    ),
    (
        BuildFault::TooMany(Var::N_ITER),
        "more entries than N_ITER can count",
    ),
    (BuildFault::Count, "not as many numbers as the row has"),
    (BuildFault::TooLong, "longer than may be sent"),
    (
        BuildFault::FillLength,
        "the fill isn't the rest of the bits",
    ),
    (BuildFault::Memory, "out of memory"),
];
