//! Which numbers and which lengths of packets still fit.

ghost use Rattle.std.specs.Prelude.{◌≡◌, ◌↔◌, ℕ, ◌-◌, ◌/◌, ◌^◌, ◌<◌, ◌≤◌, [], IsTrue};
ghost use Rattle.etcs_rows.specs.Frames.{way_of, LengthFits, UnframedFits, NumberFits, IsBlock, Within, InWindows, AreBodies};
ghost use Rattle.etcs_tables.specs.Layouts.{layout, Lengths};

use crate::least::some_length;
use crate::place::Place;
use etcs_tables::{
    CLOSING, CLOSING_BITS, MARKER_BITS, MOST_LENGTH, Row, Way, frame_bits, is_kept, row_of,
};

/// What carries packets.
#[derive(Clone, Copy, Debug, PartialEq, Eq)]
pub enum Carrier {
    /// A telegram, which goes to the train and which packet 255 closes.
    Telegram,
    /// A message this way, with at most 7 bits of padding after its last packet.
    Message(Way),
}

impl Carrier {
    /// The way of the packets of the carrier: of a telegram to the train, of a message its own.
    #[inline]
    pub fn way(self) -> Way
        ensures { result ≡ way_of self }
    {
        match self {
            Carrier::Telegram => Way::ToTrain,
            Carrier::Message(way) => way,
        }
    }
}

/// The most bits of padding after the last packet of a message.
pub const MOST_PADDING: usize = 7;

/// The least and the greatest number of `width` bits that begins with `bits` and has `rest` bits more.
pub(crate) fn ends(width: usize, rest: usize, bits: u64) -> (usize, usize)
    requires width { width ≤ 13 }
    requires rest { rest ≤ width }
    requires fits { bits < 2 ^ (width - rest) }
    ensures small { result.1 < 2 ^ width }
    ensures order { result.0 ≤ result.1 }
    ensures one { rest ≡ 0 → result.0 ≡ result.1 }
    ensures all { IsBlock (2 ^ rest) bits result.0 result.1 }
{
    let low = (bits << rest) as usize;
    (low, low + ((1 << rest) - 1))
}

/// Numbers of bits after a frame, from `low` to below `end`.
#[derive(Clone, Copy)]
struct Window {
    low: usize,
    end: usize,
}

impl Window {
    /// Whether it holds a number.
    fn any(self) -> bool
        ensures { IsTrue result ↔ ((m : ℕ) × Within self m) }
    {
        self.low < self.end
    }

    /// Whether this is one of its numbers.
    fn holds(self, bits: usize) -> bool
        ensures { IsTrue result → Within self bits }
    {
        self.low <= bits && bits < self.end
    }

    /// Whether one of its numbers of bits may be left of the row.
    fn meets(self, place: &Place) -> bool
        ensures { IsTrue result ↔ ((m : ℕ) × Within self m × Lengths place.now [] m) }
    {
        self.any() && place.meets(self.low, self.end - 1)
    }
}

/// The numbers of bits after a frame that leave what may be left after the packet.
#[derive(Clone, Copy)]
struct Windows {
    /// With room for what must follow it.
    followed: Window,
    /// With padding alone after it.
    last: Window,
}

impl Windows {
    /// Those of a packet of `low` to `high` bits if `room` bits are left.
    fn new(carrier: Carrier, room: usize, low: usize, high: usize) -> Windows
        requires { high ≤ 8191 }
        ensures { AreBodies carrier room low high result }
    {
        let frame = frame_bits(carrier.way());
        let low = low.saturating_sub(frame);
        let end = (high.min(room) + 1).saturating_sub(frame);
        match carrier {
            Carrier::Telegram => Windows {
                followed: Window {
                    low,
                    end: end.min(room.saturating_sub(frame + CLOSING_BITS - 1)),
                },
                last: Window { low, end: low },
            },
            Carrier::Message(_) => Windows {
                followed: Window {
                    low,
                    end: end.min(room.saturating_sub(frame + frame - 1)),
                },
                last: Window {
                    low: low.max(room.saturating_sub(frame + MOST_PADDING)),
                    end,
                },
            },
        }
    }

    /// Whether they hold a number.
    fn any(self) -> bool
        ensures { IsTrue result ↔ ((m : ℕ) × InWindows self m) }
    {
        self.followed.any() || self.last.any()
    }

    /// Whether a number of bits that is found at once, and that the row takes, lies in one of them.
    fn meet_least(self, row: Row) -> bool
        ensures { IsTrue result → (m : ℕ) × InWindows self m × Lengths (layout row.items.now) [] m }
    {
        match some_length(row.items, 0) {
            Some(bits) => {
                bits <= MOST_LENGTH && (self.followed.holds(bits) || self.last.holds(bits))
            }
            None => false,
        }
    }

    /// Whether the row takes a number of bits in one of them.
    fn meet_row(self, row: Row) -> bool
        ensures { IsTrue result ↔ ((m : ℕ) × InWindows self m × Lengths (layout row.items.now) [] m) }
    {
        if self.meet_least(row) {
            return true;
        }
        let place = Place::start(row);
        self.followed.meets(&place) || self.last.meets(&place)
    }
}

/// Whether some L_PACKET that begins with `bits` and has `rest` bits more after them fits, for a packet of the number
/// `nid`, if `room` bits are left in the telegram or message, counted from the packet's first bit. `rest` must be at
/// most 13, and `bits` must fit the other bits of L_PACKET.
#[inline(always)]
pub fn length_fits(carrier: Carrier, nid: u8, room: usize, rest: usize, bits: u64) -> bool
    requires rest { rest ≤ 13 }
    requires fits { bits < 2 ^ (13 - rest) }
    ensures { IsTrue result ↔ ((l : ℕ) × (l / 2 ^ rest ≡ bits) × LengthFits carrier nid room l) }
{
    let (low, high) = ends(13, rest, bits);
    let windows = Windows::new(carrier, room, low, high);
    if !windows.any() {
        return false;
    }
    let way = carrier.way();
    match row_of(way, nid) {
        None => is_kept(way, nid),
        Some(row) => {
            if rest == 0 {
                Place::start(row).can_take(low - frame_bits(way))
            } else {
                windows.meet_row(row)
            }
        }
    }
}

/// Whether a packet without a frame fits whose number is from low to high.
fn unframed_fits(carrier: Carrier, room: usize, low: u8, high: u8) -> bool
    requires { low ≤ high }
    ensures { IsTrue result ↔ ((n : ℕ) × (low ≤ n) × (n ≤ high) × UnframedFits carrier room n) }
{
    match carrier {
        Carrier::Telegram => {
            (high == CLOSING && room >= CLOSING_BITS)
                || (low == 0 && room >= MARKER_BITS + CLOSING_BITS)
        }
        Carrier::Message(_) => false,
    }
}

/// Whether a packet of this number fits with its frame.
fn framed_fits(carrier: Carrier, nid: u8, room: usize) -> bool
    ensures { IsTrue result ↔ ((l : ℕ) × LengthFits carrier nid room l) }
{
    length_fits(carrier, nid, room, 13, 0)
}

/// Whether a packet with a frame fits whose number is from low to high.
fn any_framed(carrier: Carrier, room: usize, low: u8, high: u8) -> bool
    ensures { IsTrue result ↔ ((n : ℕ) × (low ≤ n) × (n ≤ high) × ((l : ℕ) × LengthFits carrier n room l)) }
{
    for nid in low..=high {
        if framed_fits(carrier, nid, room) {
            return true;
        }
    }
    false
}

/// Whether some NID_PACKET that begins with `bits` and has `rest` bits more after them fits, if `room` bits are left in
/// the telegram or message, counted from the packet's first bit. `rest` must be at most 8, and `bits` must fit the
/// other bits of NID_PACKET.
pub fn number_fits(carrier: Carrier, room: usize, rest: usize, bits: u64) -> bool
    requires rest { rest ≤ 8 }
    requires fits { bits < 2 ^ (8 - rest) }
    ensures { IsTrue result ↔ ((n : ℕ) × (n / 2 ^ rest ≡ bits) × NumberFits carrier room n) }
{
    let (low, high) = ends(8, rest, bits);
    let (low, high) = (low as u8, high as u8);
    if unframed_fits(carrier, room, low, high) {
        return true;
    }
    any_framed(carrier, room, low, high)
}
