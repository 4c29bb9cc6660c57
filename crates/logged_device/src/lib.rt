// An encoder that keeps a log of the commands that it passes on.
#![tactic(auto)]

pub mod logged;
