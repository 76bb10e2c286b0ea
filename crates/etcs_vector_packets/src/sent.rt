//! What packets and their parts send: variables with their numbers.

use etcs_bits::{BitSlice, Bits};
use etcs_packets::inner::AnyPacket;
use etcs_vars::Var;
use etcs_vars::inner::{PairList, Variables};
use etcs_vector_lines::{Case, MOST_BITS};

/// How many bits come before those of what was sent, so that they begin inside a byte.
pub(crate) const BEFORE: usize = 5;

/// The number of NID_TEXTMESSAGE that is after what was sent.
pub(crate) const BEYOND: u64 = 200;

/// What was sent, in order.
#[derive(Drop)]
pub(crate) struct Sent {
    pairs: Vec<(Var, u64)>,
}

impl Sent {
    /// The numbers alone.
    pub(crate) fn numbers(&self, case: &mut Case) -> Vec<u64> {
        let mut numbers = Vec::new(case.alloc());
        for (_, number) in self.pairs.as_slice() {
            case.kept(numbers.push(*number).is_ok());
        }
        numbers
    }

    /// How many bits these are.
    pub(crate) fn len(&self) -> usize {
        let mut len = 0usize;
        for (var, _) in self.pairs.as_slice() {
            len = len.saturating_add(var.width());
        }
        len
    }

    /// The bits, with some before and NID_TEXTMESSAGE after them.
    pub(crate) fn surrounded(&self, case: &mut Case) -> Bits {
        let mut bits = Bits::new(case.alloc());
        push(case, &mut bits, BEFORE, 0b10110);
        for (var, number) in self.pairs.as_slice() {
            push(case, &mut bits, var.width(), *number);
        }
        push(case, &mut bits, 8, BEYOND);
        bits
    }

    /// Whether bits are just these variables' numbers, each in its variable's width.
    pub(crate) fn is_in(&self, bits: BitSlice<'_>) -> bool {
        let mut at = 0usize;
        for (var, number) in self.pairs.as_slice() {
            if bits.number(at, var.width()) != Some(*number) {
                return false;
            }
            at = at.saturating_add(var.width());
        }
        at == bits.len()
    }

    /// Answers the variables with their numbers, and their bits: the bits with some before and after them.
    pub(crate) fn say_spelled(&self, case: &mut Case) -> Bits {
        self.say(case);
        case.say("/");
        let bits = self.surrounded(case);
        if let Some(own) = bits.as_slice().cut(BEFORE, self.len()) {
            case.say_either(own.is_empty(), "", " ");
            case.say_bits(&own);
        }
        bits
    }

    /// Answers the variables with their numbers.
    pub(crate) fn say(&self, case: &mut Case) {
        for (var, number) in self.pairs.as_slice() {
            case.say_of("", *var);
            case.say(" ");
            case.say_next(*number);
        }
    }
}

/// Appends a number of a width.
fn push(case: &mut Case, bits: &mut Bits, width: usize, number: u64) {
    if width > 64 || (width < 64 && number >= 1 << width) || bits.len() > MOST_BITS {
        case.check(false, "a number too large");
    } else {
        case.kept(bits.push_number(width, number).is_ok());
    }
}

/// The variables of a part.
pub(crate) fn sent_of<V: Variables>(case: &mut Case, part: &V) -> Sent {
    let mut list = PairList::new(case.alloc());
    case.kept(part.send(&mut list).is_ok());
    let pairs = list.into_vec();
    Sent { pairs }
}

/// The variables of a packet after its frame.
pub(crate) fn packet_sent<A: AnyPacket>(case: &mut Case, packet: &A) -> Sent {
    let mut list = PairList::new(case.alloc());
    case.kept(packet.send_body(&mut list).is_ok());
    let pairs = list.into_vec();
    Sent { pairs }
}
