//! Plays rows of text and prints the result of each. They are of octets and texts that are read and written again, words, segments, tables of slots,
//! what an end answers, and stores.
//!
//! The section `codecs` of bac_stack_rows/stdin holds the rows, and that of stdout what has to be printed. A row begins with `=`, what plays it, and its title. Each of its lines
//! begins with a verb; the line is printed after `> `, and its result below. A verb without a meaning, and what fails, prints `?`: stdin has no such line. Other words
//! without a meaning stand for 0 or for no octets.
#![tactic(auto)]

mod ends;
mod frames;
mod objects;
mod pieces;
mod rows;
mod scripts;
mod segments;
mod services;
mod slots;
mod stores;
mod texts;
mod values;
mod words;

pub use rows::play_all;
