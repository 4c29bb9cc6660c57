// One indirect draw, followed from its request to the words that are drawn, without a device.
#![tactic(auto)]

pub mod figures;
pub mod follow;
