// What a host in C links for windows, entries, limits and direct draws: each function calls one of exports, writes
// what that one found and answers a status. It stands beside exports since a crate is a library or a static library.
// include/jorumspit.h declares them.
#![tactic(auto)]

pub mod entries;
pub mod limits;
pub mod windows;
