// Where the batches of a frame are staged, and where their entries will stand in metadata buffers.
#![tactic(auto)]

pub mod frame;
