// What a device is: its buffers, the commands that it takes, the interface with its meaning, and commands played on any.
#![tactic(auto)]

pub mod buffers;
pub mod commands;
pub mod interface;
pub mod play;
pub mod properties;
