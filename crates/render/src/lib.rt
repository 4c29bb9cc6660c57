// What a render pass has bound, the limits that follow from it, and the checks of a direct draw.
#![tactic(auto)]

pub mod bindings;
pub mod direct;
pub mod limits;
pub mod ready;
pub mod requests;
pub mod steps;
