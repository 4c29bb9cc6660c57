// An encoder that puts commands off, over any encoder.
#![tactic(auto)]

mod commands;
pub mod deferred;
