// A pool of buffers over a device with one call, lent as a supply of places.
#![tactic(auto)]

pub mod lent;
pub mod maker;
pub mod recorder;
pub mod requests;
pub mod stack;
pub mod tables;
