// Sheets as texts: reading one, writing one, and what the two have to do with each other.
#![tactic(auto)]

pub mod read;
pub mod write;
