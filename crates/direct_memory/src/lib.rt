// The memory of a direct device: one list of words, cut into sources, staging, its bookkeeping, and a pool.
#![tactic(auto)]

mod entries;
pub mod layout;
pub mod memory;
pub mod numbers;
mod tables;
mod words;
