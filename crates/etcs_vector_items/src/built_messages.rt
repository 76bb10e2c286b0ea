//! Vectors of messages that are built of their parts: a head, and after a word the message's own variables.
//!
//! To the train the head is T_TRAIN, M_ACK, NID_LRBG, and then follow `plain NID`, `time NID T_TRAIN`, `emergency NID NID_EM`,
//! `authorisation Q_SCALE D_SR`, `version M_VERSION`, `shifted Q_SCALE D_REF` or `orientation Q_ORIENTATION`. To the track it is
//! T_TRAIN, NID_ENGINE, and then follow `plain NID`, `time NID T_TRAIN` or `status Q_STATUS`. Packets are as `several.rt` has
//! them, with ` ; ` before each.

use crate::builds::{FAULTS, say_back};
use crate::items::check_read;
use etcs_messages::{Head, MessageOf, Own};
use etcs_radio::{Body, RadioHead};
use etcs_text::{Entry, Kind, encoded};
use etcs_train::{TrainBody, TrainHead};
use etcs_vars::Fed;
use etcs_vector_lines::Case;
use etcs_vector_packets::{all_packets, first_bits};

/// Answers a line about messages that are built: whether it is one.
pub(crate) fn answer(case: &mut Case, kind: &str) -> bool {
    match kind {
        "radio_built" | "radio_padded" => {
            let message = radio(case);
            say_message(case, Kind::Radio, message);
        }
        "radio_whole" => {
            let message = whole(case).map(|message| Entry::Message(message));
            say_message(case, Kind::Radio, message);
        }
        "train_built" | "train_padded" => {
            let message = train(case);
            say_message(case, Kind::Train, message);
        }
        "train_whole" => {
            let message = whole(case).map(|message| Entry::Train(message));
            say_message(case, Kind::Train, message);
        }
        _ => return false,
    }
    true
}

/// `radio_built MESSAGE ; PACKETS`: the bytes of the message, or what is refused and the packets that come back.
/// `radio_padded MESSAGE ; PACKETS : PADDING`: the same with this PADDING.
fn radio(case: &mut Case) -> Option<Entry> {
    let padding = case.split(" : ");
    let beyond = case.split(" ; ");
    let head = RadioHead {
        t_train: case.next(),
        m_ack: case.next(),
        nid_lrbg: case.next(),
    };
    let body = radio_body(case);
    case.continue_with(beyond);
    let packets = all_packets(case);
    Some(Entry::Message(made(case, head, body, packets, padding)?))
}

/// The number of a message to the train and its own variables.
fn radio_body(case: &mut Case) -> Body {
    match case.word() {
        "plain" => Body::Plain { nid: case.byte() },
        "time" => Body::TrainTime {
            nid: case.byte(),
            t_train: case.next(),
        },
        "emergency" => Body::Emergency {
            nid: case.byte(),
            nid_em: case.byte(),
        },
        "authorisation" => Body::SrAuthorisation {
            q_scale: case.byte(),
            d_sr: case.half(),
        },
        "version" => Body::Version {
            m_version: case.byte(),
        },
        "shifted" => Body::Shifted {
            q_scale: case.byte(),
            d_ref: signed(case.half()),
        },
        word => {
            if word != "orientation" {
                case.bad();
            }
            Body::Orientation {
                q_orientation: case.flag(),
            }
        }
    }
}

/// The number that 16 bits are in two's complement.
fn signed(bits: u16) -> i16 {
    if bits < 32768 {
        bits as i16
    } else {
        (i32::from(bits) - 65536) as i16
    }
}

/// `train_built` and `train_padded`: the same of a message to the track.
fn train(case: &mut Case) -> Option<Entry> {
    let padding = case.split(" : ");
    let beyond = case.split(" ; ");
    let head = TrainHead {
        t_train: case.next(),
        nid_engine: case.next(),
    };
    let body = train_body(case);
    case.continue_with(beyond);
    let packets = all_packets(case);
    Some(Entry::Train(made(case, head, body, packets, padding)?))
}

/// The number of a message to the track and its own variables.
fn train_body(case: &mut Case) -> TrainBody {
    match case.word() {
        "plain" => TrainBody::Plain { nid: case.byte() },
        "time" => TrainBody::TrainTime {
            nid: case.byte(),
            t_train: case.next(),
        },
        word => {
            if word != "status" {
                case.bad();
            }
            TrainBody::Status {
                q_status: case.byte(),
            }
        }
    }
}

/// The message of its parts, and of a PADDING where there are words for one; or says what is refused, and the packets that
/// come back.
fn made<H, B>(
    case: &mut Case,
    head: H,
    body: B,
    packets: Vec<H::Packet>,
    padding: &str,
) -> Option<MessageOf<H, B>>
where
    H: Head + PartialEq,
    B: Own<Front = H> + PartialEq,
{
    let built = if padding.is_empty() {
        MessageOf::new(head, body, packets)
    } else {
        let number = case.read(padding);
        MessageOf::with_padding(head, body, packets, case.byte_of(number))
    };
    match built {
        Ok(message) => {
            let parts = message.head() == Some(&head) && message.body() == Some(&body);
            case.check(parts, "of other parts");
            Some(message)
        }
        Err((fault, packets)) => {
            case.say_fault(fault, &FAULTS);
            say_back(case, packets.as_slice());
            None
        }
    }
}

/// `radio_whole NID COUNT` and `train_whole NID COUNT`: the message that is kept as this many ones; or says what is refused.
fn whole<H: Head, B: Own<Front = H>>(case: &mut Case) -> Option<MessageOf<H, B>> {
    let nid = case.byte();
    let len = case.up_to(9000) as usize;
    let ones = case.bits_between("", "9000 x 1", "");
    match MessageOf::kept(nid, first_bits(ones, len)) {
        Ok(message) => Some(message),
        Err((fault, bits)) => {
            case.say_fault(fault, &FAULTS);
            case.check(bits.len() == len, "other bits back");
            None
        }
    }
}

/// The bytes of a message that was built.
fn say_message(case: &mut Case, kind: Kind, message: Option<Entry>) {
    if let Some(message) = message {
        let mut bytes = Vec::new(case.alloc());
        case.kept(encoded(&message, &mut bytes).is_ok());
        case.say_hex(bytes.as_slice());
        let fed = Ok(Fed::Done { taken: bytes.len() });
        check_read(case, kind, bytes.as_slice(), fed, Some(&message));
    }
}
