//! What the numbers of variables mean (SUBSET-026, 7.5).

use crate::text::Text;
use etcs_vars::Var;

/// What a number measures, or how it is put together.
#[derive(Clone, Copy, Debug, PartialEq, Eq)]
enum Unit {
    /// A distance in the unit of Q_SCALE.
    Distance,
    /// The same with a sign, in two's complement of 16 bits.
    Shift,
    /// The unit of this text.
    In(&'static str),
    /// Steps of 5 km/h, at most 120 of them.
    Speed,
    /// Steps of 10 ms.
    Hundredths,
    /// Three bits X and four bits Y of a version X.Y.
    Version,
    /// 10 bits of NID_C and 14 bits of NID_BG.
    Group,
    /// One less than a position.
    Position,
    /// One less than a count.
    Count,
    /// A character of ISO 8859-1.
    Letter,
}

/// Units, each with the variables that have it.
macro_rules! units {
    ($($unit:ident $(($text:literal))?: $($var:ident)*;)*) => {
        [$((Unit::$unit $(($text))?, &[$(Var::$var),*])),*]
    };
}

#[rattlefmt::skip]
static UNITS: &[(Unit, &[Var])] = &units! {
    Distance: D_LINK L_SECTION D_SECTIONTIMERSTOPLOC L_ENDSECTION D_ENDTIMERSTARTLOC D_DP D_STARTOL D_OL D_GRADIENT D_STATIC
        D_LEVELTR L_ACKLEVELTR D_TSR L_TSR D_TEXTDISPLAY L_TEXTDISPLAY D_SR D_CYCLOC D_LOC D_TRACKINIT D_TRACKCOND L_TRACKCOND
        D_MAMODE L_MAMODE L_ACKMAMODE D_RBCTR D_LRBG L_DOUBTOVER L_DOUBTUNDER;
    Shift: D_REF;
    In(" m"): Q_LOCACC L_TRAININT;
    Speed: V_MAIN V_LOA V_RELEASEDP V_RELEASEOL V_STATIC V_DIFF V_TSR V_MAMODE V_TRAIN;
    In(" s"): T_LOA T_SECTIONTIMER T_ENDTIMER T_OL T_TEXTDISPLAY T_MAR T_TIMEOUTRQST T_CYCRQST T_CYCLOC;
    Hundredths: T_TRAIN;
    In(" per mille"): G_A G_TSR;
    Version: M_VERSION_HEADER M_VERSION;
    Group: NID_LRBG NID_PRVLRBG;
    Position: N_PIG;
    Count: N_TOTAL;
    Letter: X_TEXT;
};

/// Numbers that are no measure, each with its text and the variables that have it.
macro_rules! specials {
    ($($number:literal $text:literal: $($var:ident)*;)*) => { [$(($number, $text, &[$(Var::$var),*])),*] };
}

/// What `Var::special` hasn't.
#[rattlefmt::skip]
static SPECIALS: &[(u64, &str, &[Var])] = &specials! {
    254 "fits no message of the group": M_MCOUNT;
    255 "fits each message of the group": M_MCOUNT;
    127 "national value": V_MAMODE;
    255 "infinite": T_MAR T_CYCRQST T_CYCLOC;
    1023 "infinite": T_TIMEOUTRQST;
    1023 "not limited by time": T_TEXTDISPLAY;
    32767 "infinite": D_SR D_CYCLOC L_MAMODE;
    32767 "not limited by distance": D_TEXTDISPLAY L_TEXTDISPLAY;
    32767 "unknown": D_LRBG L_DOUBTOVER L_DOUBTUNDER;
    16383 "unknown": NID_BG;
    16777215 "unknown": NID_PRVLRBG;
    4294967295 "unknown": T_TRAIN;
};

/// The texts of variables' numbers from 0 on, each with the variables that have them.
macro_rules! texts {
    ($($($var:ident)*: $($text:literal)*;)*) => { [$((&[$($text),*], &[$(Var::$var),*])),*] };
}

#[rattlefmt::skip]
static TEXTS: &[(&[&str], &[Var])] = &texts! {
    Q_UPDOWN: "" "track to train";
    Q_MEDIA: "balise";
    M_DUP: "no duplicate" "duplicate of the next balise" "duplicate of the previous balise";
    Q_LINK: "unlinked" "linked";
    Q_DIR: "reverse" "nominal" "both directions";
    Q_SCALE: "distances in 10 cm" "distances in 1 m" "distances in 10 m";
    Q_LINKORIENTATION: "reverse" "nominal";
    Q_LINKREACTION: "train trip" "service brake" "no reaction";
    Q_GDIR: "downhill" "uphill";
    Q_FRONT: "train-length delay at the end of the element" "no train-length delay at the end of the element";
    Q_DIFF: "cant deficiency category" "other category, in place of cant deficiency"
        "other category, in addition to cant deficiency";
    M_LEVELTR M_LEVEL: "level 0" "level NTC" "level 1" "level 2" "level 3";
    Q_RBC: "end the session" "open a session";
    Q_SLEEPSESSION: "not by sleeping equipment" "by sleeping equipment too";
    Q_TEXTCLASS: "auxiliary" "important";
    Q_TEXTDISPLAY: "one condition is enough" "all conditions";
    M_LEVELTEXTDISPLAY: "level 0" "level NTC" "level 1" "level 2" "level 3" "any level";
    Q_TEXTCONFIRM: "no confirmation required";
    Q_ASPECT: "stop if in SH mode" "go if in SH mode";
    Q_SRSTOP: "stop if in SR mode" "go if in SR mode";
    M_ACK: "no acknowledgement" "to be acknowledged";
    M_LOC: "now" "at each balise group" "at no balise group";
    Q_LGTLOC: "rear" "front";
    M_MAMODE: "on sight" "shunting" "limited supervision";
    Q_STATUS: "invalid" "valid" "unknown";
    Q_DIRLRBG Q_DLRBG Q_DIRTRAIN: "reverse" "nominal" "unknown";
    Q_LENGTH: "no integrity information" "confirmed by integrity device" "confirmed by driver" "integrity lost";
    M_MODE: "full supervision" "on sight" "staff responsible" "shunting" "unfitted" "sleeping" "stand by" "trip" "post trip"
        "system failure" "isolation" "non leading" "limited supervision" "national system" "reversing" "passive shunting";
};

/// What a list has of a variable.
fn listed<T: Copy>(list: &'static [(T, &'static [Var])], var: Var) -> Option<T> {
    let found = list.iter().find(|row| row.1.contains(&var))?;
    Some(found.0)
}

/// The text of a number that has one.
fn text_of(var: Var, number: u64) -> Option<&'static str> {
    if let Some(text) = var.special(number) {
        return Some(text);
    }
    let mut specials = SPECIALS.iter();
    match specials.find(|row| row.0 == number && row.2.contains(&var)) {
        Some(row) => Some(row.1),
        None => listed(TEXTS, var)?.get(number as usize).copied(),
    }
}

/// Appends a distance in the unit of Q_SCALE, after a sign; nothing if the unit isn't known.
fn write_distance(sign: &str, number: u64, scale: Option<u64>, out: &mut Text) {
    match scale {
        Some(0) => write!(out, "{sign}{}.{} m", number / 10, number % 10),
        Some(1) => write!(out, "{sign}{number} m"),
        Some(2) => write!(out, "{sign}{} m", number.saturating_mul(10)),
        _ => {}
    }
}

/// Appends a number in its unit.
fn write_measure(unit: Unit, number: u64, scale: Option<u64>, out: &mut Text) {
    match unit {
        Unit::Shift if number > 32767 => {
            write_distance("-", 65536u64.saturating_sub(number), scale, out)
        }
        Unit::Distance | Unit::Shift => write_distance("", number, scale, out),
        Unit::In(text) => write!(out, "{number}{text}"),
        Unit::Speed if number > 120 => out.push("no speed"),
        Unit::Speed => write!(out, "{} km/h", number.saturating_mul(5)),
        Unit::Hundredths => write!(out, "{}.{:02} s", number / 100, number % 100),
        Unit::Version => write!(out, "version {}.{}", number / 16, number % 16),
        Unit::Group => write!(out, "NID_C {}, NID_BG {}", number / 16384, number % 16384),
        Unit::Position => write!(out, "position {}", number.saturating_add(1)),
        Unit::Count => write!(out, "{} in the group", number.saturating_add(1)),
        Unit::Letter if number < 32 || number > 126 => {}
        Unit::Letter => write!(out, "'{}'", char::from((number & 127) as u8)),
    }
}

/// Appends what a number of the variable means (SUBSET-026, 7.5), with distances in the unit of this Q_SCALE; nothing if it
/// means nothing further.
pub fn write_meaning(var: Var, number: u64, scale: Option<u64>, out: &mut Text) {
    if let Some(text) = text_of(var, number) {
        out.push(text);
    } else if let Some(unit) = listed(UNITS, var) {
        write_measure(unit, number, scale, out);
    }
}
