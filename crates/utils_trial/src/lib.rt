// The guard over the marks of a struct, in a loop over records with early ends.
#![tactic(auto)]

pub mod batch;
pub mod error;
pub mod groups;
