//! The names of packets and messages (SUBSET-026, 7.4 and 8).

use etcs_tables::Way;

/// Of packets to the train.
#[rattlefmt::skip]
static TO_TRAIN: &[(u8, &str)] = &[
    (0, "Virtual Balise Cover marker"), (2, "System Version order"), (3, "National Values"), (5, "Linking"),
    (6, "Virtual Balise Cover order"), (12, "Level 1 Movement Authority"),
    (13, "Staff Responsible distance information from loop"), (15, "Level 2/3 Movement Authority"),
    (16, "Repositioning Information"), (21, "Gradient Profile"), (27, "International Static Speed Profile"),
    (39, "Track Condition Change of traction system"), (40, "Track Condition Change of allowed current consumption"),
    (41, "Level Transition Order"), (42, "Session Management"),
    (44, "Data used by applications outside the ERTMS/ETCS system"), (45, "Radio Network registration"),
    (46, "Conditional Level Transition Order"), (49, "List of balises for SH Area"), (51, "Axle Load Speed Profile"),
    (52, "Permitted Braking Distance Information"), (57, "Movement Authority Request Parameters"),
    (58, "Position Report Parameters"), (63, "List of Balises in SR Authority"),
    (64, "Inhibition of revocable TSRs from balises in L2/3"), (65, "Temporary Speed Restriction"),
    (66, "Temporary Speed Restriction Revocation"), (67, "Track Condition Big Metal Masses"), (68, "Track Condition"),
    (69, "Track Condition Station Platforms"), (70, "Route Suitability Data"), (71, "Adhesion Factor"),
    (72, "Packet for sending plain text messages"), (76, "Packet for sending fixed text messages"),
    (79, "Geographical Position Information"), (80, "Mode profile"), (88, "Level Crossing information"),
    (90, "Track Ahead Free up to level 2/3 transition location"), (131, "RBC transition order"),
    (132, "Danger for Shunting information"), (133, "Radio infill area information"), (134, "EOLM Packet"),
    (135, "Stop Shunting on desk opening"), (136, "Infill location reference"), (137, "Stop if in Staff Responsible"),
    (138, "Reversing area information"), (139, "Reversing supervision information"),
    (140, "Train running number from RBC"), (141, "Default Gradient for Temporary Speed Restriction"),
    (143, "Session Management with neighbouring RIU"), (145, "Inhibition of balise group message consistency reaction"),
    (180, "LSSMA display toggle order"), (181, "Generic LS function marker"),
    (254, "Default balise, loop or RIU information"), (255, "end of information"),
];

/// Of those to the track.
#[rattlefmt::skip]
static TO_TRACK: &[(u8, &str)] = &[
    (0, "Position Report"), (1, "Position Report based on two balise groups"), (2, "Onboard supported system versions"),
    (3, "Onboard telephone numbers"), (4, "Error Reporting"), (5, "Train running number"),
    (9, "Level 2/3 transition information"), (11, "Validated train data"),
    (44, "Data used by applications outside the ERTMS/ETCS system"),
];

/// Of messages of both ways: each number is of one.
#[rattlefmt::skip]
static MESSAGES: &[(u8, &str)] = &[
    (2, "SR Authorisation"), (3, "Movement Authority"), (6, "Recognition of exit from TRIP mode"),
    (8, "Acknowledgement of Train Data"), (9, "Request to Shorten MA"), (15, "Conditional Emergency Stop"),
    (16, "Unconditional Emergency Stop"), (18, "Revocation of Emergency Stop"), (24, "General message"),
    (27, "SH Refused"), (28, "SH Authorised"), (32, "RBC/RIU System Version"), (33, "MA with Shifted Location Reference"),
    (34, "Track Ahead Free Request"), (37, "Infill MA"), (38, "Initiation of a communication session"),
    (39, "Acknowledgement of termination of a communication session"), (40, "Train Rejected"), (41, "Train Accepted"),
    (43, "SoM position report confirmed by RBC"), (45, "Assignment of coordinate system"), (129, "Validated Train Data"),
    (130, "Request for Shunting"), (132, "MA Request"), (136, "Train Position Report"),
    (137, "Request to shorten MA is granted"), (138, "Request to shorten MA is rejected"), (146, "Acknowledgement"),
    (147, "Acknowledgement of Emergency Stop"), (149, "Track Ahead Free Granted"), (150, "End of Mission"),
    (153, "Radio infill request"), (154, "No compatible version supported"),
    (155, "Initiation of a communication session"), (156, "Termination of a communication session"),
    (157, "SoM Position Report"), (158, "Text message acknowledged by driver"), (159, "Session established"),
];

/// The name of a number in a list.
fn name_in(names: &'static [(u8, &'static str)], number: u64) -> Option<&'static str> {
    let name = names.iter().find(|name| u64::from(name.0) == number)?;
    Some(name.1)
}

/// The name of the packet of this way and number (SUBSET-026, 7.4). `None` for a number that the standard doesn't have.
pub fn packet_name(way: Way, number: u64) -> Option<&'static str> {
    match way {
        Way::ToTrain => name_in(TO_TRAIN, number),
        Way::ToTrack => name_in(TO_TRACK, number),
    }
}

/// The name of the message of this number (SUBSET-026, 8.5). `None` for a number that the standard doesn't have.
pub fn message_name(number: u64) -> Option<&'static str> {
    name_in(MESSAGES, number)
}
