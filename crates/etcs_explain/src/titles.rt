//! The title of an item, and how many bytes the item has.

ghost use Rattle.std.specs.Prelude.{◌≡◌, ◌≤◌};
ghost use Rattle.etcs_explain.specs.Cuts.{awaited};

use etcs_reasons::inner::{MOST_BYTES, Text, message_name, wanted_bytes};
use etcs_reasons::{Account, End};
use etcs_text::Kind;
use etcs_vars::Var;

/// Appends what bytes are, or where they stop being so.
pub(crate) fn write_title(kind: Kind, bytes: &[u8], end: End, out: &mut Text) {
    let count = bytes.len();
    match end {
        End::Refused(bit, part) => write!(out, "refused at bit {bit}, {}", part.var),
        End::Open(part) => {
            let bits = count.saturating_mul(8);
            write!(out, "truncated after {bits} bits, in {}", part.var)
        }
        End::Whole => write_whole(kind, count, out),
    }
}

/// Appends the heading of an item of a page: its kind, what is in its header, and how many bytes or packets it has; or where
/// it stops being an item.
pub(crate) fn write_heading(kind: Kind, bytes: &[u8], account: &Account, out: &mut Text) {
    match kind {
        Kind::Long => out.push("long telegram"),
        Kind::Short => out.push("short telegram"),
        Kind::Radio => write_message("to the train", account, out),
        Kind::Train => write_message("to the track", account, out),
    }
    let mut packets = 0usize;
    for (var, number) in account.fields.as_slice() {
        if *var == Var::NID_PACKET {
            packets = packets.saturating_add(1);
        } else if packets == 0 {
            write_known(*var, *number, out);
        }
    }
    match account.end {
        End::Whole => write_size(kind, bytes.len(), packets, out),
        _ => {
            out.push(": ");
            write_title(kind, bytes, account.end, out);
        }
    }
}

/// Appends which message an account is of, as far as that is known.
fn write_message(way: &str, account: &Account, out: &mut Text) {
    let Some((Var::NID_MESSAGE, number)) = account.fields.get(0) else {
        return write!(out, "message {way}");
    };
    write!(out, "message {number} {way}");
    if let Some(name) = message_name(*number) {
        write!(out, ", {name}");
    }
}

/// Appends a variable of a header, if headings have it.
fn write_known(var: Var, number: u64, out: &mut Text) {
    match var {
        Var::NID_C | Var::NID_BG => write!(out, ", {var} {number}"),
        Var::M_VERSION_HEADER => write!(out, ", version {}.{}", number / 16, number % 16),
        _ => {}
    }
}

/// Appends how many packets a telegram has before packet 255, which is one of these, or how many bytes a message has.
fn write_size(kind: Kind, bytes: usize, packets: usize, out: &mut Text) {
    match (kind, packets.saturating_sub(1)) {
        (Kind::Radio | Kind::Train, _) => write!(out, ", {bytes} bytes"),
        (Kind::Long | Kind::Short, 1) => out.push(", 1 packet"),
        (Kind::Long | Kind::Short, packets) => write!(out, ", {packets} packets"),
    }
}

/// Appends what an item of a kind is that has this many bytes.
fn write_whole(kind: Kind, count: usize, out: &mut Text) {
    match kind {
        Kind::Long => out.push("telegram, long, 830 bits"),
        Kind::Short => out.push("telegram, short, 210 bits"),
        Kind::Radio => write!(out, "message to the train, {count} bytes"),
        Kind::Train => write!(out, "message to the track, {count} bytes"),
    }
}

/// How many bytes the item has that these begin, as far as that is known.
pub(crate) fn awaited(kind: Kind, bytes: &[u8]) -> usize
    ensures most { result ≤ 1023 }
    ensures value { result ≡ awaited kind bytes.now }
{
    wanted_bytes(kind, bytes).unwrap_or(3).clamp(3, MOST_BYTES)
}
