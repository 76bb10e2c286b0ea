//! What most programs use: telegrams and messages, their packets, readers, groups, faults, items and their text.
//! [`Assembly`] is one balise group, [`Groups`] has those of many telegrams.

pub use etcs_bits::{BitSlice, Bits};
pub use etcs_group::{Added, Assembly, Clash, GroupFault, Groups};
pub use etcs_json::{JsonFault, Value, from_line, from_value, to_value};
pub use etcs_packets::{
    Authority, BaliseAt, BaliseList, Condition, ConditionalLevelOrder, Differing, FixedText, Flat,
    Gradient, InfillLocation, Level, Level1Ma, Level23Ma, LevelAck, LevelOrder, Link, Linking,
    Marker, ModeProfile, ModeSection, Other, Packet, Packetlike, PlainText, ReportAt,
    ReportParameters, Section, Shown, Slope, Speed, SpeedProfile, TextFrame, TrackCondition,
    TrackState,
};
pub use etcs_places::{Place, places};
pub use etcs_radio::{Body, Message, MessageReader, RadioHead};
pub use etcs_reasons::{Account, Reason, why};
pub use etcs_tables::Way;
pub use etcs_telegram::{
    Header, Held, NoRoom, PacketRef, Packets, Size, Telegram, TelegramReader, TelegramView,
    ViewFault,
};
pub use etcs_text::{
    Entry, EntryReader, Kind, SingleReader, Verdict, check_line, encoded, hex_line, json_line,
    read_pairs, same_pairs, show_lines, write_pairs,
};
pub use etcs_track::{
    Located, PositionReport, PositionReportTwo, TrainFlat, TrainOther, TrainPacket,
};
pub use etcs_train::{TrainBody, TrainHead, TrainMessage, TrainReader};
pub use etcs_vars::{BuildFault, Fed, ReadFault, Var, pairs_of};
