// What a host calls for places, frames and sheets, on numbers and slices. frame_exports_c makes C functions of these,
// whose statuses are the numbers of the failures here.
#![tactic(auto)]

pub mod frames;
pub mod records;
pub mod sheets;
pub mod status;
pub mod subranges;
