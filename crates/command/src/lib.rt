// What every call of the product speaks in: kinds of draws, refusals and answers, and the device's settings.
#![tactic(auto)]

pub mod answer;
pub mod args;
pub mod family;
pub mod refusal;
pub mod settings;
pub mod sizes;
