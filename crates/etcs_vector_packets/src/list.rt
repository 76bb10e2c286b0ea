//! The list of typed packets: number and variant of those without groups, the variant of those with groups.
//!
//! [`to_train`] and [`to_track`] hand their lists to another macro, with what that one is given in braces before them.

/// Calls another macro with the typed packets to the train.
macro_rules! to_train {
    ($then:ident, $($with:tt)*) => {
        $then! {
            { Packet, $($with)* }
            [
                2 SystemVersion,
                16 Repositioning,
                42 SessionManagement,
                45 RadioNetwork,
                57 MaRequest,
                64 InhibitTsr,
                65 Tsr,
                66 TsrRevocation,
                131 RbcTransition,
                132 DangerForShunting,
                135 StopShunting,
                137 StopInSr,
                140 TrainRunningNumber,
                141 TsrGradient,
                145 InhibitConsistency,
                254 DefaultInformation,
            ]
            Linking,
            Level1Ma,
            Level23Ma,
            Gradient,
            SpeedProfile,
            LevelOrder,
            ConditionalLevelOrder,
            ShuntingList,
            ReportParameters,
            SrList,
            TrackCondition,
            PlainText,
            FixedText,
            ModeProfile,
            InfillLocation,
        }
    };
}

/// Calls another macro with the typed packets to the track.
macro_rules! to_track {
    ($then:ident, $($with:tt)*) => {
        $then! {
            { TrainPacket, $($with)* }
            [
                4 Fault,
                5 RunningNumber,
            ]
            Report,
            ReportTwo,
        }
    };
}

/// A match over packets: of each with groups, and of the others.
macro_rules! of_grouped {
    ({ $way:ident, $packet:expr, $own:ident => $of_own:expr, $of_others:expr } [$($nid:literal $flat:ident,)*] $($grouped:ident,)*) => {
        match $packet {
            $($way::$grouped($own) => $of_own,)*
            _ => $of_others,
        }
    };
}

/// A match over packets: of each without groups, and of the others.
macro_rules! of_flat {
    ({ $way:ident, $packet:expr, $own:ident => $of_own:expr, $of_others:expr } [$($nid:literal $flat:ident,)*] $($grouped:ident,)*) => {
        match $packet {
            $($way::$flat($own) => $of_own,)*
            _ => $of_others,
        }
    };
}

/// The packet without groups of a number, where there are any, of what is built; or why there is none.
macro_rules! by_number {
    ({ $way:ident, $number:expr, $built:expr, $fault:expr } [$($nid:literal $flat:ident,)*] $($grouped:ident,)*) => {
        Ok(match $number {
            $($nid => $way::$flat($built?),)*
            _ => return Err($fault),
        })
    };
}

/// A match over two packets: of two of one type with groups, and of others.
macro_rules! of_two {
    ({ $way:ident, $first:expr, $second:expr, $same:ident } [$($nid:literal $flat:ident,)*] $($grouped:ident,)*) => {
        match ($first, $second) {
            $(($way::$grouped(first), $way::$grouped(second)) => Some($same(first, second)),)*
            _ => None,
        }
    };
}

pub(crate) use by_number;
pub(crate) use of_flat;
pub(crate) use of_grouped;
pub(crate) use of_two;
pub(crate) use to_track;
pub(crate) use to_train;
