//! The typed packets to the track, listed once: number and variant of each.

/// Calls another macro with all typed packets.
macro_rules! packets {
    ($then:ident, $($with:tt)*) => {
        $then! {
            { $($with)* }
            TrainPacket:
            0 Report,
            1 ReportTwo,
            4 Fault,
            5 RunningNumber,
        }
    };
}

pub(crate) use packets;
