// Answers a sheet: where its draws go, which are refused, and how the frame is planned.
#![tactic(auto)]

pub mod answer;
pub mod frame;
pub mod print;
pub mod reader;
