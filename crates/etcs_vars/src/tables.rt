//! The table of the variables: names, widths and admitted numbers; and the texts of special numbers.

ghost use Rattle.std.specs.Prelude.{◌≡◌, Some, slice_get};
ghost use Rattle.std.specs.Option.{option_map};
ghost use Rattle.etcs_vars.specs.Vars.{width, ranges, name, special};

use crate::var::Var;

/// An array of what the macro `$of` makes of each variable, in the order of `Var`.
///
/// A line has the variable, the name that is printed if that is another one, the width, and the
/// ranges of the numbers that are admitted, the least first; with no range, all numbers of the width
/// are. `$of` is called with all of these, and always with the name: `Q_UPDOWN Q_UPDOWN 1 (1, 1)`.
#[macro_export]
macro_rules! variables {
    ($of:ident) => {
        $crate::variables! { $of:
            // The header of a telegram.
            Q_UPDOWN 1 (1, 1),
            M_VERSION_HEADER as M_VERSION 7 (32, 33),
            Q_MEDIA 1 (0, 0),
            N_PIG 3,
            N_TOTAL 3,
            M_DUP 2 (0, 2),
            M_MCOUNT 8,
            NID_C 10,
            NID_BG 14,
            Q_LINK 1,
            // The frame of a packet.
            NID_PACKET 8,
            Q_DIR 2 (0, 2),
            L_PACKET 13,
            Q_SCALE 2 (0, 2),
            N_ITER 5,
            NID_VBCMK 6,
            // Linking and infill.
            D_LINK 15,
            Q_NEWCOUNTRY 1,
            Q_LINKORIENTATION 1,
            Q_LINKREACTION 2 (0, 2),
            Q_LOCACC 6,
            // Movement authorities.
            V_MAIN 7 (0, 120),
            V_LOA 7 (0, 120),
            T_LOA 10,
            L_SECTION 15,
            Q_SECTIONTIMER 1,
            T_SECTIONTIMER 10,
            D_SECTIONTIMERSTOPLOC 15,
            L_ENDSECTION 15,
            Q_ENDTIMER 1,
            T_ENDTIMER 10,
            D_ENDTIMERSTARTLOC 15,
            Q_DANGERPOINT 1,
            D_DP 15,
            V_RELEASEDP 7 (0, 120) (126, 127),
            Q_OVERLAP 1,
            D_STARTOL 15,
            T_OL 10,
            D_OL 15,
            V_RELEASEOL 7 (0, 120) (126, 127),
            // Profiles of gradient and speed.
            D_GRADIENT 15,
            Q_GDIR 1,
            G_A 8,
            G_TSR 8,
            D_STATIC 15,
            V_STATIC 7 (0, 120) (127, 127),
            Q_FRONT 1,
            Q_DIFF 2 (0, 2),
            NC_CDDIFF 4,
            NC_DIFF 4,
            V_DIFF 7,
            // Levels.
            D_LEVELTR 15,
            M_LEVELTR 3 (0, 4),
            NID_NTC 8,
            L_ACKLEVELTR 15,
            // The radio network.
            Q_RBC 1,
            NID_RBC 14,
            NID_RADIO 64,
            Q_SLEEPSESSION 1,
            NID_MN 24,
            // Temporary speed restrictions.
            NID_TSR 8,
            D_TSR 15,
            L_TSR 15,
            V_TSR 7 (0, 120),
            // Texts.
            Q_TEXTCLASS 2,
            Q_TEXTDISPLAY 1,
            D_TEXTDISPLAY 15,
            M_MODETEXTDISPLAY 4,
            M_LEVELTEXTDISPLAY 3 (0, 5),
            L_TEXTDISPLAY 15,
            T_TEXTDISPLAY 10,
            Q_TEXTCONFIRM 2,
            Q_CONFTEXTDISPLAY 1,
            Q_TEXTREPORT 1,
            NID_TEXTMESSAGE 8,
            L_TEXT 8,
            X_TEXT 8,
            Q_TEXT 8,
            // Other packets.
            Q_ASPECT 1,
            Q_SRSTOP 1,
            NID_OPERATIONAL 32,
            M_VERSION 7,
            // Radio messages.
            NID_MESSAGE 8,
            L_MESSAGE 10,
            T_TRAIN 32,
            M_ACK 1,
            NID_LRBG 24,
            D_SR 15,
            NID_EM 4,
            D_REF 16,
            Q_ORIENTATION 1,
            // Requests for a movement authority.
            T_MAR 8,
            T_TIMEOUTRQST 10,
            T_CYCRQST 8,
            // Position reports.
            T_CYCLOC 8,
            D_CYCLOC 15,
            M_LOC 3,
            D_LOC 15,
            Q_LGTLOC 1,
            // Track conditions.
            Q_TRACKINIT 1,
            D_TRACKINIT 15,
            D_TRACKCOND 15,
            L_TRACKCOND 15,
            M_TRACKCOND 4,
            // Mode profiles.
            D_MAMODE 15,
            M_MAMODE 2 (0, 2),
            V_MAMODE 7 (0, 120) (127, 127),
            L_MAMODE 15,
            L_ACKMAMODE 15,
            Q_MAMODE 1,
            // Handing over to another radio block centre.
            D_RBCTR 15,
            // Messages to the track.
            NID_ENGINE 24,
            Q_STATUS 2,
            // What a train reports.
            NID_PRVLRBG 24,
            M_ERROR 8,
            D_LRBG 15,
            Q_DIRLRBG 2,
            Q_DLRBG 2,
            L_DOUBTOVER 15,
            L_DOUBTUNDER 15,
            Q_LENGTH 2,
            L_TRAININT 15,
            V_TRAIN 7,
            Q_DIRTRAIN 2,
            M_MODE 4,
            M_LEVEL 3 (0, 4),
            // Bits that are kept as they are, one variable for each bit.
            FILL 1,
            OTHER_DATA 1,
            PADDING 1,
            PAD 1 (0, 0),
        }
    };
    ($of:ident: $($var:ident $(as $name:ident)? $width:literal $(($low:literal, $high:literal))*,)*) => {
        [$($crate::variables!($of $var $(as $name)? $width $(($low, $high))*)),*]
    };
    ($of:ident $var:ident as $name:ident $($more:tt)*) => { $of!($var $name $($more)*) };
    ($of:ident $var:ident $($more:tt)*) => { $of!($var $var $($more)*) };
}

/// The width.
macro_rules! width {
    ($var:ident $name:ident $width:literal $($range:tt)*) => { $width };
}

/// The ranges.
macro_rules! ranges {
    ($var:ident $name:ident $width:literal) => { &[first_range!($var $name $width)] };
    ($var:ident $name:ident $width:literal $($range:tt)+) => { &[$($range),+] };
}

/// The first of the ranges.
macro_rules! first_range {
    ($var:ident $name:ident $width:literal) => { (0, u64::MAX >> (64 - $width)) };
    ($var:ident $name:ident $width:literal $first:tt $($more:tt)*) => { $first };
}

/// The name.
macro_rules! name {
    ($var:ident $name:ident $($more:tt)*) => { stringify!($name) };
}

/// How many variables there are.
pub const COUNT: usize = Var::PAD as usize + 1;

static WIDTHS: [u8; COUNT] = variables!(width);

static RANGES: [&[(u64, u64)]; COUNT] = variables!(ranges);

static FIRST_RANGES: [(u64, u64); COUNT] = variables!(first_range);

static NAMES: [&str; COUNT] = variables!(name);

impl Var {
    /// How many bits the variable takes, from 1 to 64 (SUBSET-026, 7.5).
    #[inline]
    pub fn width(self) -> usize
        ensures { result ≡ width self }
    {
        WIDTHS[self as usize] as usize
    }

    /// The numbers that the variable admits, as ranges, both ends included, the least first. They are apart, and spare
    /// numbers are in none.
    #[inline]
    pub fn ranges(self) -> &'static [(u64, u64)]
        ensures { result.now ≡ ranges self }
    {
        RANGES[self as usize]
    }

    /// The first of the ranges.
    #[inline]
    pub(crate) fn first_range(self) -> (u64, u64)
        ensures { slice_get (ranges self) 0 ≡ Some result }
    {
        FIRST_RANGES[self as usize]
    }

    /// The name as it is printed, which is that of the standard. `M_VERSION` is the name of two variables.
    pub fn name(self) -> &'static str
        ensures { result.now ≡ name self }
    {
        NAMES[self as usize]
    }

    /// The text of a number that isn't a plain quantity, such as `unlimited` for 1023 of T_LOA. `None` for every other
    /// number.
    #[inline(always)]
    pub fn special(self, number: u64) -> Option<&'static str>
        ensures { option_map (λ text. text.now) result ≡ special self number }
    {
        let text = match (self, number) {
            (Var::V_STATIC, 127) | (Var::G_A, 255) => "end of profile",
            (Var::V_RELEASEDP | Var::V_RELEASEOL, 126) => "calculated on board",
            (Var::V_RELEASEDP | Var::V_RELEASEOL, 127) => "national value",
            (Var::T_LOA | Var::T_SECTIONTIMER | Var::T_ENDTIMER | Var::T_OL, 1023) => "unlimited",
            (Var::D_LEVELTR, 32767) => "now",
            (Var::NID_LRBG, 16777215) => "unknown",
            _ => return None,
        };
        Some(text)
    }
}
