//! The calls and their words.

use crate::bit_calls::{Rows, refuse_copy, refuse_push};
use crate::each::refuse_each;
use crate::entry_calls::{FromTree, Text, Texts, ToTree};
use crate::feeds::refuse_feed;
use crate::packet_calls::{
    Clones, Fields, FromFields, GroupLine, numbers_of, refuse_message, refuse_view,
};
use crate::runs::refuse_run;
use etcs_json::to_value;
use etcs_packets::Packet;
use etcs_packets::inner::AnyPacket;
use etcs_text::{Entry, Kind, json_line};
use etcs_vector_items::{item_of, next_kind};
use etcs_vector_lines::Case;

/// Answers a line: `from_slice HEX`, `push WIDTH HEX`, `feed STEP KIND HEX`, `to_packet KIND HEX`, `message KIND HEX ..`,
/// `run COMMAND KIND FORM STEP COUNT HEX ..`, and `CALL KIND HEX` for each other call.
pub(crate) fn answer(case: &mut Case) {
    match case.word() {
        "from_slice" => refuse_copy(case),
        "push" => refuse_push(case),
        "feed" => refuse_feed(case),
        "to_packet" => refuse_view(case),
        "message" => refuse_message(case),
        "run" => refuse_run(case),
        call => of_item(case, call),
    }
}

/// Makes a call of an item.
fn of_item(case: &mut Case, call: &str) {
    let kind = next_kind(case);
    let bytes = case.bytes();
    let item = item_of(case, kind, bytes.as_slice());
    match item.as_ref() {
        Some(entry) => of_entry(case, call, kind, entry),
        None => case.bad(),
    }
}

/// Makes a call of an item of a kind.
fn of_entry(case: &mut Case, call: &str, kind: Kind, entry: &Entry) {
    match call {
        "show_lines" => text(case, entry, Text::Show),
        "json_line" => text(case, entry, Text::Json),
        "hex_line" => text(case, entry, Text::Hex),
        "encode" => text(case, entry, Text::Encoded),
        "to_value" => to_tree(case, entry),
        "from_value" => from_tree(case, kind, entry),
        _ => of_packets(case, call, entry),
    }
}

/// Makes a call of a telegram's group, or of the packets of an item: `try_clone`, and of those to the train further ones.
fn of_packets(case: &mut Case, call: &str, entry: &Entry) {
    match entry {
        Entry::Telegram(telegram) if call == "groups" => refuse_each(case, GroupLine { telegram }),
        Entry::Telegram(telegram) => to_train(case, call, telegram.packets()),
        Entry::Message(message) => to_train(case, call, message.packets()),
        Entry::Train(message) if call == "try_clone" => clones(case, message.packets()),
        Entry::Train(_) => case.bad(),
    }
}

/// Makes a call of packets to the train.
fn to_train(case: &mut Case, call: &str, packets: &[Packet]) {
    let listed = numbers_of(case, packets);
    let rows = listed.as_slice();
    match call {
        "fields" => refuse_each(case, Fields { packets }),
        "from_fields" => refuse_each(case, FromFields { rows }),
        "write_row" => refuse_each(case, Rows { rows }),
        "try_clone" => clones(case, packets),
        _ => case.bad(),
    }
}

/// Copies packets.
fn clones<P: AnyPacket + PartialEq>(case: &mut Case, packets: &[P]) {
    refuse_each(case, Clones { packets });
}

/// Appends a text of an item.
fn text(case: &mut Case, entry: &Entry, text: Text) {
    refuse_each(case, Texts { entry, text });
}

/// Makes the tree of an item, whose text is the item's line.
fn to_tree(case: &mut Case, entry: &Entry) {
    let alloc = case.alloc();
    let mut line = Vec::new(alloc);
    case.kept(json_line(entry, &mut line).is_ok());
    if let Some(tree) = case.got(to_value(alloc, entry)) {
        if let Some(text) = case.got(tree.to_string(alloc)) {
            let same = line.as_slice().strip_suffix(b"\n") == Some(text.as_bytes());
            case.check(same, "another line");
        }
    }
    refuse_each(case, ToTree { entry });
}

/// Reads the tree of an item.
fn from_tree(case: &mut Case, kind: Kind, entry: &Entry) {
    if let Some(tree) = case.got(to_value(case.alloc(), entry)) {
        refuse_each(case, FromTree { kind, tree });
    }
}
