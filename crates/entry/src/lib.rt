// One entry of a batch: where its window over the source begins, its packed metadata, and the check of its arguments.
#![tactic(auto)]

pub mod metadata;
pub mod validate;
pub mod window;
