//! Laws, each the contract of a function, or of [`etcs_bodies::laws::exact_equality`]: `==` of each type is equality of
//! its values.

ghost use Rattle.std.specs.Prelude.{◌≡◌};
ghost use Rattle.etcs_track.specs.TrackPackets.{track_value};

use crate::located::Located;
use crate::position_report::PositionReport;
use crate::position_report_two::PositionReportTwo;
use crate::train_flat::TrainFlat;
use crate::train_other::TrainOther;
use crate::train_packet::TrainPacket;
use etcs_bodies::laws::Exact;
use etcs_packets::inner::AnyPacket;

/// Two packets that stand for one value are equal: packets of one number and the same variables or kept bits.
#[tactic(auto, using(crate::specs::laws::OneTrackPacket::one_packet))]
pub fn one_packet(first: &TrainPacket, second: &TrainPacket)
    ensures { track_value first.now ≡ track_value second.now → first.now ≡ second.now }
{
    first.hold();
    second.hold();
}

impl Exact for Located {
    ghost use Rattle.etcs_track.specs.laws.Equality.{located_exact};

    ghost exact = { located_exact };
}

impl Exact for PositionReport {
    ghost use Rattle.etcs_track.specs.laws.Equality.{position_report_exact};

    ghost exact = { position_report_exact };
}

impl Exact for PositionReportTwo {
    ghost use Rattle.etcs_track.specs.laws.Equality.{position_report_two_exact};

    ghost exact = { position_report_two_exact };
}

impl<const NID: u8> Exact for TrainFlat<NID> {
    ghost use Rattle.etcs_track.specs.laws.Equality.{train_flat_exact};

    ghost exact = { train_flat_exact };
}

impl Exact for TrainOther {
    ghost use Rattle.etcs_track.specs.laws.Equality.{train_other_exact};

    ghost exact = { train_other_exact };
}

impl Exact for TrainPacket {
    ghost use Rattle.etcs_track.specs.laws.Equality.{train_packet_exact};

    ghost exact = { train_packet_exact };
}
