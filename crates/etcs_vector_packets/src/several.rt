//! Packets one after another, as lines of telegrams, of messages and of what is written have them.
//!
//! A packet is `0 NUMBER`, `NID Q_DIR NUMBERS` after L_PACKET, or `NID Q_DIR bDIGITS` for kept bits, with ` ; ` between two
//! packets. To the track there is no `0 NUMBER` and no Q_DIR.

use crate::forms::Asked;
use crate::packets::{listed, next_dir};
use etcs_tables::Way;
use etcs_vector_lines::Case;

/// The packet of all words that are left.
fn packet<A: Asked>(case: &mut Case) -> Option<A> {
    let nid = case.byte();
    if nid == 0 && A::WAY == Way::ToTrain {
        return A::marker(case);
    }
    let dir = next_dir::<A>(case);
    let rest = case.rest();
    match rest.strip_prefix('b') {
        Some(digits) => A::kept(nid, dir, case.bits_between("", digits, "")).ok(),
        None => {
            case.continue_with(rest);
            let numbers = case.numbers();
            listed(case, nid, dir, numbers.as_slice())
        }
    }
}

/// The packets of all words that are left.
pub fn all_packets<A: Asked>(case: &mut Case) -> Vec<A> {
    let mut packets = Vec::new(case.alloc());
    for _ in 0..100u8 {
        if case.is_empty() {
            break;
        }
        let beyond = case.split(" ; ");
        match packet(case) {
            Some(packet) => case.kept(packets.push(packet).is_ok()),
            None => case.bad(),
        }
        case.continue_with(beyond);
    }
    packets
}
