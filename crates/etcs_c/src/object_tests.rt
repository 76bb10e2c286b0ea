//! The objects that are written of why a line is the JSON of no item.

use crate::call_tests::{SPARE, unanswered};
use crate::etcs_json_reason;
use std::alloc::Global;
use std::test::Fail;

/// A kind, a line that is the JSON of none of its items, and the object that is written of it.
type OfObjects = (u32, &'static [u8], &'static [u8]);

static OBJECTS: &[OfObjects] = &[
    (
        3,
        b"{}",
        b"{\"column\":null,\"expected\":null,\"found\":null,\"path\":\".kind\",\"reason\":\".kind: this member is missing\"}",
    ),
    (
        3,
        b"[]",
        b"{\"column\":null,\"expected\":\"an object\",\"found\":\"a list\",\"path\":\".\",\"reason\":\".: expected an object, found a list\"}",
    ),
    (
        2,
        b"{\"kind\":\"long\"}",
        b"{\"column\":null,\"expected\":\"\\\"short\\\"\",\"found\":\"\\\"long\\\"\",\"path\":\".kind\",\"reason\":\".kind: expected \\\"short\\\", as in --kind, found \\\"long\\\"\"}",
    ),
    (
        1,
        b"[0,?]",
        b"{\"column\":4,\"expected\":null,\"found\":null,\"path\":null,\"reason\":\"not JSON: unexpected ? at column 4\"}",
    ),
    (
        2,
        SPARE,
        b"{\"column\":null,\"expected\":null,\"found\":null,\"path\":\".packets[0].data\",\"reason\":\".packets[0].data: the bits are refused at bit 74 of the item, Q_SCALE\"}",
    ),
];

/// The first of these lines of which another object is written.
fn wrong_of_objects(alloc: Global, cases: &[OfObjects]) -> Option<usize> {
    for (i, case) in cases.iter().enumerate() {
        let (kind, line, wanted) = *case;
        let (answer, mut out) = (&mut unanswered(), [0; 256]);
        etcs_json_reason(alloc, kind, line, &mut out, answer);
        if answer.written != wanted.len() || !out.starts_with(wanted) {
            return Some(i);
        }
    }
    None
}

/// What is written of why a line is the JSON of no item.
#[test]
fn objects(rt: HostRuntime) -> Result<(), Fail> {
    assert_eq!(rt; wrong_of_objects(rt.alloc(), OBJECTS), None);
    Ok(())
}
