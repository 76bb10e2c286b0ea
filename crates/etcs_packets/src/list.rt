//! The typed packets to the train, listed once: number and variant of each; and what such a list, of either way, is
//! handed to.
//!
//! [`packets`] hands the list to another macro, with what that one is given in braces before it.

/// Calls another macro with all typed packets.
macro_rules! packets {
    ($then:ident, $($with:tt)*) => {
        $then! {
            { $($with)* }
            Packet:
            2 SystemVersion,
            5 Linking,
            12 Level1Ma,
            15 Level23Ma,
            16 Repositioning,
            21 Gradient,
            27 SpeedProfile,
            41 LevelOrder,
            42 SessionManagement,
            45 RadioNetwork,
            46 ConditionalLevelOrder,
            49 ShuntingList,
            57 MaRequest,
            58 ReportParameters,
            63 SrList,
            64 InhibitTsr,
            65 Tsr,
            66 TsrRevocation,
            68 TrackCondition,
            72 PlainText,
            76 FixedText,
            80 ModeProfile,
            131 RbcTransition,
            132 DangerForShunting,
            135 StopShunting,
            136 InfillLocation,
            137 StopInSr,
            140 TrainRunningNumber,
            141 TsrGradient,
            145 InhibitConsistency,
            254 DefaultInformation,
        }
    };
}

/// A match over all packets: of the marker, if there is one, of any typed packet, and of a packet that is kept.
#[macro_export]
macro_rules! of_each {
    ({ $packet:expr, $([$marker:pat => $of_marker:expr])? $typed:ident => $of_typed:expr, $kept:pat => $of_kept:expr } $sum:ident: $($nid:literal $variant:ident,)*) => {
        match $packet {
            $($sum::VbcMarker($marker) => $of_marker,)?
            $($sum::$variant($typed) => $of_typed,)*
            $sum::Other($kept) => $of_kept,
        }
    };
}

/// An equal packet of the same variant: for each that is typed a call whose last argument makes its variant.
#[macro_export]
macro_rules! copied {
    ({ $packet:expr, $alloc:expr $(, $marker:ident)? } $sum:ident: $($nid:literal $variant:ident,)*) => {
        match $packet {
            $($sum::$marker(marker) => Ok($sum::$marker(*marker)),)?
            $($sum::$variant(packet) => $crate::inner::copy_of($alloc, packet, $sum::$variant),)*
            $sum::Other(packet) => Ok($sum::Other(packet.try_clone($alloc)?)),
        }
    };
}

/// The packet of a number: for each that is typed a call whose last argument makes its variant, and else none.
#[macro_export]
macro_rules! by_number {
    ({ $way:expr, $number:expr, $alloc:expr, $dir:expr, $source:expr } $sum:ident: $($nid:literal $variant:ident,)*) => {
        match $number {
            $($nid => $crate::inner::packet_of($alloc, $dir, $source, $sum::$variant),)*
            _ => $crate::inner::none_of($way, $number, $source),
        }
    };
}

/// The row of a number: for each that is typed a call whose last argument makes its variant, and else none.
#[macro_export]
macro_rules! pass_by_number {
    ({ $number:expr, $numbers:expr, $out:expr } $sum:ident: $($nid:literal $variant:ident,)*) => {
        match $number {
            $($nid => $crate::inner::pass_of($numbers, $out, $sum::$variant),)*
            _ => Ok(None),
        }
    };
}

pub(crate) use packets;
