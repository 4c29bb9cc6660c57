// Gathers indirect draws into batches, in tables that the caller lends to each call.
#![tactic(auto)]

pub mod batcher;
pub mod records;
pub mod search;
pub mod tables;
pub mod terms;
