// Sheets, and reading one.
//
// A sheet is a text of at most 65,536 bytes. A newline ends each of its lines, and the last line may do without.
// The lines come in this order:
//
//     align=N
//     binding=N
//     source=N, 1 to 64 such lines, N at most 4,294,967,295
//     draw=KIND,SOURCE,OFFSET,FIRST,INSTANCE, any number of such lines
//
// A number has 1 to 20 decimal digits and is below 2^64. Nothing else stands in a line: no space, sign or carriage
// return. A text that is no sheet is bad at its first line that is none of these or out of order, or, where it ends
// too soon, at the line that is missing. Lines count from 1. A text with more bytes is too long, whatever it says.
#![tactic(auto)]

pub mod line;
pub mod page;
mod parser;
pub mod read;
mod stage;
mod text;
