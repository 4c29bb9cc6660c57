// What a host in C links for places, frames and sheets: each function calls one of frame_exports, and answers its
// outcome as a status. include/jorumspit.h declares them. The clauses here are what C is promised, in numbers and in
// slices of its own. They are a crate of their own since a crate is a library or a static library, and hosts in Rattle
// and in C want one each.
#![tactic(auto)]

pub mod frames;
pub mod sheets;
pub mod subranges;
