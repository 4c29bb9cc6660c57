// What a host in Rattle calls for windows, entries, limits and direct draws: each function answers what it found or why
// there is nothing. exports_c gives C the same as statuses, by `give` and `give_report`. The structs are C's, and what a
// host passes is not judged yet, so that kinds and flags are numbers here, and alignment and largest binding stand apart.
#![tactic(auto)]

pub mod bound;
pub mod entries;
pub mod limits;
pub mod status;
pub mod windows;
