//! The rows of packets and messages (SUBSET-026, 7.4 and 8).

ghost use Rattle.std.specs.Prelude.{◌≡◌, [], ◌∷◌, IsTrue, IfSome, IfNone, map};
ghost use Rattle.std.specs.Option.{option_map};
ghost use Rattle.etcs_tables.specs.Headers.{header_row, head_row};
ghost use Rattle.etcs_tables.specs.Layouts.{items, layout, is_sound};
ghost use Rattle.etcs_tables.specs.declared.item.RowItem.TheVariants as item;
ghost use Rattle.etcs_tables.specs.Rows.{row_to, message_row_to};
ghost use Rattle.etcs_tables.specs.MessageRows.{row_bits, lengths_after};

use crate::item::RowItem::{Many, One, When};
use crate::item::{Guard, RowItem, Test};
use crate::row::{Row, Way};
use etcs_vars::Var;

/// One item of a row: a variable, `(V TEST n)` if the next n items are there only if V passes the test, or `[n]` if
/// they are there as often as the number of the variable before.
macro_rules! item {
    ($var:ident) => { One(Var::$var) };
    (($var:ident $test:ident $count:literal)) => {
        When(Guard { var: Var::$var, test: Test::$test }, $count)
    };
    ([$count:literal]) => { Many($count) };
}

/// A row of these items.
macro_rules! row {
    ($($item:tt)*) => { Row { items: &[$(item!($item)),*] } };
}

/// A message's bits and lengths, and its row.
macro_rules! message {
    ($bits:literal, $lengths:tt $($item:tt)*) => {
        TypedMessage { items: &[$(item!($item)),*], bits: $bits, lengths: &$lengths }
    };
}

// ---- Packets to the train, after NID_PACKET, Q_DIR and L_PACKET.

const NO_VARIABLES: Row = row!();

const SYSTEM_VERSION: Row = row!(M_VERSION);

const LINKING: Row = row! {
    Q_SCALE D_LINK Q_NEWCOUNTRY (Q_NEWCOUNTRY IsOne 1) NID_C NID_BG Q_LINKORIENTATION
    Q_LINKREACTION Q_LOCACC N_ITER [8] D_LINK Q_NEWCOUNTRY (Q_NEWCOUNTRY IsOne 1) NID_C NID_BG
    Q_LINKORIENTATION Q_LINKREACTION Q_LOCACC
};

const LEVEL1_MA: Row = row! {
    Q_SCALE V_MAIN V_LOA T_LOA N_ITER [5] L_SECTION Q_SECTIONTIMER (Q_SECTIONTIMER IsOne 2)
    T_SECTIONTIMER D_SECTIONTIMERSTOPLOC L_ENDSECTION Q_SECTIONTIMER (Q_SECTIONTIMER IsOne 2)
    T_SECTIONTIMER D_SECTIONTIMERSTOPLOC Q_ENDTIMER (Q_ENDTIMER IsOne 2) T_ENDTIMER
    D_ENDTIMERSTARTLOC Q_DANGERPOINT (Q_DANGERPOINT IsOne 2) D_DP V_RELEASEDP Q_OVERLAP
    (Q_OVERLAP IsOne 4) D_STARTOL T_OL D_OL V_RELEASEOL
};

const LEVEL23_MA: Row = row! {
    Q_SCALE V_LOA T_LOA N_ITER [5] L_SECTION Q_SECTIONTIMER (Q_SECTIONTIMER IsOne 2) T_SECTIONTIMER
    D_SECTIONTIMERSTOPLOC L_ENDSECTION Q_SECTIONTIMER (Q_SECTIONTIMER IsOne 2) T_SECTIONTIMER
    D_SECTIONTIMERSTOPLOC Q_ENDTIMER (Q_ENDTIMER IsOne 2) T_ENDTIMER D_ENDTIMERSTARTLOC
    Q_DANGERPOINT (Q_DANGERPOINT IsOne 2) D_DP V_RELEASEDP Q_OVERLAP (Q_OVERLAP IsOne 4) D_STARTOL
    T_OL D_OL V_RELEASEOL
};

const REPOSITIONING: Row = row!(Q_SCALE L_SECTION);

const GRADIENT: Row = row!(Q_SCALE D_GRADIENT Q_GDIR G_A N_ITER [3] D_GRADIENT Q_GDIR G_A);

const SPEED_PROFILE: Row = row! {
    Q_SCALE D_STATIC V_STATIC Q_FRONT N_ITER [6] Q_DIFF (Q_DIFF IsZero 1) NC_CDDIFF
    (Q_DIFF IsOneOrTwo 1) NC_DIFF V_DIFF N_ITER [11] D_STATIC V_STATIC Q_FRONT N_ITER [6] Q_DIFF
    (Q_DIFF IsZero 1) NC_CDDIFF (Q_DIFF IsOneOrTwo 1) NC_DIFF V_DIFF
};

const LEVEL_ORDER: Row = row! {
    Q_SCALE D_LEVELTR M_LEVELTR (M_LEVELTR IsOne 1) NID_NTC L_ACKLEVELTR N_ITER [4] M_LEVELTR
    (M_LEVELTR IsOne 1) NID_NTC L_ACKLEVELTR
};

const SESSION_MANAGEMENT: Row = row!(Q_RBC NID_C NID_RBC NID_RADIO Q_SLEEPSESSION);

const RADIO_NETWORK: Row = row!(NID_MN);

const CONDITIONAL_LEVEL_ORDER: Row = row! {
    M_LEVELTR (M_LEVELTR IsOne 1) NID_NTC N_ITER [3] M_LEVELTR (M_LEVELTR IsOne 1) NID_NTC
};

const BALISE_LIST: Row = row!(N_ITER [4] Q_NEWCOUNTRY (Q_NEWCOUNTRY IsOne 1) NID_C NID_BG);

const MA_REQUEST: Row = row!(T_MAR T_TIMEOUTRQST T_CYCRQST);

const REPORT_PARAMETERS: Row = row!(Q_SCALE T_CYCLOC D_CYCLOC M_LOC N_ITER [2] D_LOC Q_LGTLOC);

const TSR: Row = row!(Q_SCALE NID_TSR D_TSR L_TSR Q_FRONT V_TSR);

const TSR_REVOCATION: Row = row!(NID_TSR);

const TRACK_CONDITION: Row = row! {
    Q_SCALE Q_TRACKINIT (Q_TRACKINIT IsOne 1) D_TRACKINIT (Q_TRACKINIT IsZero 8) D_TRACKCOND
    L_TRACKCOND M_TRACKCOND N_ITER [3] D_TRACKCOND L_TRACKCOND M_TRACKCOND
};

const PLAIN_TEXT: Row = row! {
    Q_SCALE Q_TEXTCLASS Q_TEXTDISPLAY D_TEXTDISPLAY M_MODETEXTDISPLAY M_LEVELTEXTDISPLAY
    (M_LEVELTEXTDISPLAY IsOne 1) NID_NTC L_TEXTDISPLAY T_TEXTDISPLAY M_MODETEXTDISPLAY
    M_LEVELTEXTDISPLAY (M_LEVELTEXTDISPLAY IsOne 1) NID_NTC Q_TEXTCONFIRM
    (Q_TEXTCONFIRM IsNotZero 6) Q_CONFTEXTDISPLAY Q_TEXTREPORT (Q_TEXTREPORT IsOne 3)
    NID_TEXTMESSAGE NID_C NID_RBC L_TEXT [1] X_TEXT
};

const FIXED_TEXT: Row = row! {
    Q_SCALE Q_TEXTCLASS Q_TEXTDISPLAY D_TEXTDISPLAY M_MODETEXTDISPLAY M_LEVELTEXTDISPLAY
    (M_LEVELTEXTDISPLAY IsOne 1) NID_NTC L_TEXTDISPLAY T_TEXTDISPLAY M_MODETEXTDISPLAY
    M_LEVELTEXTDISPLAY (M_LEVELTEXTDISPLAY IsOne 1) NID_NTC Q_TEXTCONFIRM
    (Q_TEXTCONFIRM IsNotZero 6) Q_CONFTEXTDISPLAY Q_TEXTREPORT (Q_TEXTREPORT IsOne 3)
    NID_TEXTMESSAGE NID_C NID_RBC Q_TEXT
};

const MODE_PROFILE: Row = row! {
    Q_SCALE D_MAMODE M_MAMODE V_MAMODE L_MAMODE L_ACKMAMODE Q_MAMODE N_ITER [6] D_MAMODE M_MAMODE
    V_MAMODE L_MAMODE L_ACKMAMODE Q_MAMODE
};

const RBC_TRANSITION: Row = row!(Q_SCALE D_RBCTR NID_C NID_RBC NID_RADIO Q_SLEEPSESSION);

const DANGER_FOR_SHUNTING: Row = row!(Q_ASPECT);

const INFILL_LOCATION: Row = row!(Q_NEWCOUNTRY (Q_NEWCOUNTRY IsOne 1) NID_C NID_BG);

const STOP_IN_SR: Row = row!(Q_SRSTOP);

const TRAIN_RUNNING_NUMBER: Row = row!(NID_OPERATIONAL);

const TSR_GRADIENT: Row = row!(Q_GDIR G_TSR);

// ---- Packets to the track, after NID_PACKET and L_PACKET.

const POSITION_REPORT: Row = row! {
    Q_SCALE NID_LRBG D_LRBG Q_DIRLRBG Q_DLRBG L_DOUBTOVER L_DOUBTUNDER Q_LENGTH
    (Q_LENGTH IsOneOrTwo 1) L_TRAININT V_TRAIN Q_DIRTRAIN M_MODE M_LEVEL (M_LEVEL IsOne 1) NID_NTC
};

const POSITION_REPORT_TWO: Row = row! {
    Q_SCALE NID_LRBG NID_PRVLRBG D_LRBG Q_DIRLRBG Q_DLRBG L_DOUBTOVER L_DOUBTUNDER Q_LENGTH
    (Q_LENGTH IsOneOrTwo 1) L_TRAININT V_TRAIN Q_DIRTRAIN M_MODE M_LEVEL (M_LEVEL IsOne 1) NID_NTC
};

const FAULT_REPORT: Row = row!(M_ERROR);

// ---- Messages.

/// A typed message.
struct TypedMessage {
    /// The variables of its own, after the header.
    items: &'static [RowItem],
    /// How many bits they take.
    bits: usize,
    /// The numbers of bytes, L_MESSAGE, that it may have, as ranges with both ends.
    lengths: &'static [(u64, u64)],
}

// ---- Messages to the train, after a header of 75 bits.

static PLAIN_MESSAGE: TypedMessage = message!(0, [(10, 10), (13, 1023)]);

static SR_AUTHORISATION: TypedMessage = message!(17, [(12, 12), (15, 1023)] Q_SCALE D_SR);

static TRAIN_TIME: TypedMessage = message!(32, [(14, 14), (17, 1023)] T_TRAIN);

static EMERGENCY: TypedMessage = message!(4, [(10, 10), (13, 1023)] NID_EM);

static MESSAGE_VERSION: TypedMessage = message!(7, [(11, 11), (14, 1023)] M_VERSION);

static SHIFTED_LOCATION: TypedMessage = message!(18, [(12, 12), (15, 1023)] Q_SCALE D_REF);

static ORIENTATION: TypedMessage = message!(1, [(10, 10), (13, 1023)] Q_ORIENTATION);

// ---- Messages to the track, after a header of 74 bits.

static PLAIN_REPORT: TypedMessage = message!(0, [(10, 10), (12, 1023)]);

static ACKNOWLEDGEMENT: TypedMessage = message!(32, [(14, 14), (16, 1023)] T_TRAIN);

static START_REPORT: TypedMessage = message!(2, [(10, 10), (13, 1023)] Q_STATUS);

// ---- Headers.

/// The ten variables of a telegram's header, in the order of sending (SUBSET-026, 8).
pub fn header_row() -> Row
    ensures { result.items.now ≡ map (λ v. item.One v) header_row }
{
    row!(Q_UPDOWN M_VERSION_HEADER Q_MEDIA N_PIG N_TOTAL M_DUP M_MCOUNT NID_C NID_BG Q_LINK)
}

/// The variables of a typed message's header after NID_MESSAGE and L_MESSAGE, in the order of sending (SUBSET-026, 8).
/// Those of its own follow, and then packets.
pub fn head_row(way: Way) -> Row
    ensures { result.items.now ≡ map (λ v. item.One v) (head_row way) }
{
    match way {
        Way::ToTrain => row!(T_TRAIN M_ACK NID_LRBG),
        Way::ToTrack => row!(T_TRAIN NID_ENGINE),
    }
}

/// The row of a packet: what comes after its NID_PACKET, Q_DIR to the train, and L_PACKET (SUBSET-026, 7.4).
/// `None` exactly if the number isn't typed; to the train 0 and 255 aren't.
pub fn row_of(way: Way, nid: u8) -> Option<Row>
    ensures { option_map (λ row. row.items.now) result ≡ option_map items (row_to way nid) }
{
    match way {
        Way::ToTrain => row_to_train(nid),
        Way::ToTrack => row_to_track(nid),
    }
}

/// The row of a packet to the train.
fn row_to_train(nid: u8) -> Option<Row>
    ensures { option_map (λ row. row.items.now) result ≡ option_map items (row_to Way.ToTrain nid) }
{
    match nid {
        2 => Some(SYSTEM_VERSION),
        5 => Some(LINKING),
        12 => Some(LEVEL1_MA),
        15 => Some(LEVEL23_MA),
        16 => Some(REPOSITIONING),
        21 => Some(GRADIENT),
        27 => Some(SPEED_PROFILE),
        41 => Some(LEVEL_ORDER),
        42 => Some(SESSION_MANAGEMENT),
        45 => Some(RADIO_NETWORK),
        46 => Some(CONDITIONAL_LEVEL_ORDER),
        49 | 63 => Some(BALISE_LIST),
        57 => Some(MA_REQUEST),
        58 => Some(REPORT_PARAMETERS),
        64 | 135 | 145 | 254 => Some(NO_VARIABLES),
        65 => Some(TSR),
        66 => Some(TSR_REVOCATION),
        68 => Some(TRACK_CONDITION),
        72 => Some(PLAIN_TEXT),
        76 => Some(FIXED_TEXT),
        80 => Some(MODE_PROFILE),
        131 => Some(RBC_TRANSITION),
        132 => Some(DANGER_FOR_SHUNTING),
        136 => Some(INFILL_LOCATION),
        137 => Some(STOP_IN_SR),
        140 => Some(TRAIN_RUNNING_NUMBER),
        141 => Some(TSR_GRADIENT),
        _ => None,
    }
}

/// The row of a packet to the track.
fn row_to_track(nid: u8) -> Option<Row>
    ensures { option_map (λ row. row.items.now) result ≡ option_map items (row_to Way.ToTrack nid) }
{
    match nid {
        0 => Some(POSITION_REPORT),
        1 => Some(POSITION_REPORT_TWO),
        4 => Some(FAULT_REPORT),
        5 => Some(TRAIN_RUNNING_NUMBER),
        _ => None,
    }
}

/// The row of a message: the variables of its own, after the header (SUBSET-026, 8).
/// `None` exactly if the number isn't typed.
pub fn message_row(way: Way, nid: u8) -> Option<Row>
    ensures { option_map (λ row. row.items.now) result ≡ option_map items (message_row_to way nid) }
{
    let message = typed_message(way, nid)?;
    Some(Row {
        items: message.items,
    })
}

/// How many bits the variables of a typed message's own take, after its header. `None` exactly if its number isn't
/// typed.
pub fn message_bits(way: Way, nid: u8) -> Option<usize>
    ensures { result ≡ option_map row_bits (message_row_to way nid) }
{
    let message = typed_message(way, nid)?;
    Some(message.bits)
}

/// The numbers of bytes, L_MESSAGE, that leave at most 7 bits or the frame of a packet or more after header and row of
/// a message of this number, as ranges with both ends; 3 to 1,023 if the number isn't typed. The contract is this
/// computation; that these are the lengths that such a message may have is the contract of `message_lengths` of
/// etcs_rows.
pub fn message_ranges(way: Way, nid: u8) -> &'static [(u64, u64)]
    ensures { result.now ≡ lengths_after way (message_row_to way nid) }
{
    match typed_message(way, nid) {
        Some(message) => message.lengths,
        None => &[(3, 1023)],
    }
}

/// The typed message of a number.
#[inline(always)]
fn typed_message(way: Way, nid: u8) -> Option<&'static TypedMessage>
    ensures row { option_map (λ message. message.now.items.now) result ≡ option_map items (message_row_to way nid) }
    ensures bits { option_map (λ message. message.now.bits) result ≡ option_map row_bits (message_row_to way nid) }
    ensures sound { IfSome result (λ message. IsTrue (is_sound (layout message.now.items.now))) }
    ensures some { IfSome result (λ message. lengths_after way (message_row_to way nid) ≡ message.now.lengths.now) }
    ensures none { IfNone result (lengths_after way (message_row_to way nid) ≡ (3, 1023) ∷ []) }
{
    match way {
        Way::ToTrain => message_to_train(nid),
        Way::ToTrack => message_to_track(nid),
    }
}

/// The typed message to the train of a number.
fn message_to_train(nid: u8) -> Option<&'static TypedMessage>
    ensures row { option_map (λ message. message.now.items.now) result ≡ option_map items (message_row_to Way.ToTrain nid) }
    ensures bits { option_map (λ message. message.now.bits) result ≡ option_map row_bits (message_row_to Way.ToTrain nid) }
    ensures sound { IfSome result (λ message. IsTrue (is_sound (layout message.now.items.now))) }
    ensures some { IfSome result (λ message. lengths_after Way.ToTrain (message_row_to Way.ToTrain nid) ≡ message.now.lengths.now) }
    ensures none { IfNone result (lengths_after Way.ToTrain (message_row_to Way.ToTrain nid) ≡ (3, 1023) ∷ []) }
{
    match nid {
        2 => Some(&SR_AUTHORISATION),
        3 | 6 | 9 | 24 | 38 | 39 | 40 | 41 | 43 => Some(&PLAIN_MESSAGE),
        8 | 27 | 28 => Some(&TRAIN_TIME),
        16 | 18 => Some(&EMERGENCY),
        32 => Some(&MESSAGE_VERSION),
        33 => Some(&SHIFTED_LOCATION),
        45 => Some(&ORIENTATION),
        _ => None,
    }
}

/// The typed message to the track of a number.
fn message_to_track(nid: u8) -> Option<&'static TypedMessage>
    ensures row { option_map (λ message. message.now.items.now) result ≡ option_map items (message_row_to Way.ToTrack nid) }
    ensures bits { option_map (λ message. message.now.bits) result ≡ option_map row_bits (message_row_to Way.ToTrack nid) }
    ensures sound { IfSome result (λ message. IsTrue (is_sound (layout message.now.items.now))) }
    ensures some { IfSome result (λ message. lengths_after Way.ToTrack (message_row_to Way.ToTrack nid) ≡ message.now.lengths.now) }
    ensures none { IfNone result (lengths_after Way.ToTrack (message_row_to Way.ToTrack nid) ≡ (3, 1023) ∷ []) }
{
    match nid {
        130 | 136 | 150 | 155 | 156 | 159 => Some(&PLAIN_REPORT),
        137 | 138 | 146 => Some(&ACKNOWLEDGEMENT),
        157 => Some(&START_REPORT),
        _ => None,
    }
}
