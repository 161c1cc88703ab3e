//! Plays rows of text and prints the result of each. They are of frames of each link layer, capture files, the datagrams of transactions, what
//! `explain` prints with options, and what it says of made-up worlds.
//!
//! The section `captures` of bac_stack_rows/stdin holds the rows, and that of stdout what has to be printed. That was worked out by hand from the
//! RFCs, from the descriptions of the file formats, and from the rules of transactions. A row begins with `=`, what plays it, and its title. What
//! goes to standard error is printed after `! `, and the exit status where it is not 0. A row that fails prints `?`: stdin has no such row. Words without a meaning
//! stand for 0 or for no octets.
#![tactic(auto)]

mod failing;
mod frames;
mod printing;
mod rows;
mod seen;
mod selected;
mod transactions;
mod words;
mod worlds;

pub use rows::play_all;
