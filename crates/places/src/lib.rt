// Where things of given sizes go in buffers of one size, over any supply of buffers.
#![tactic(auto)]

pub mod counted;
pub mod current;
pub mod subrange;
pub mod supply;
