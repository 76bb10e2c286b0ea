//! Tests of what no vector can express: the one reader over variables, rows and packets, from pieces; a packet and sinks
//! used through their bounds; calls that take no memory or hand back what they were lent, which the program `etcs_refusals`
//! doesn't test; what a group returns only to its caller; readers that are fed after their item; items as pairs;
//! and texts of faults.
#![tactic(auto)]

#[cfg(test)]
mod entry_tests;
#[cfg(test)]
mod fault_tests;
#[cfg(test)]
mod field_tests;
#[cfg(test)]
mod flat_tests;
#[cfg(test)]
mod group_tests;
#[cfg(test)]
mod groups_tests;
#[cfg(test)]
mod item_tests;
#[cfg(test)]
mod packet_tests;
#[cfg(test)]
mod packetlike_tests;
#[cfg(test)]
mod pair_tests;
#[cfg(test)]
mod pieces;
#[cfg(test)]
mod row_tests;
#[cfg(test)]
mod sink_tests;
