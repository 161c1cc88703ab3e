//! Plays rows of text and prints what comes of each: single nodes, worlds, nodes on links in memory, a socket of this machine, tables
//! of many slots, and scripts.
//!
//! The section `nodes` of bac_stack_rows/stdin holds the rows, and that of stdout what has to be printed. A row begins with `=`, what plays it, and its title. In rows of nodes,
//! worlds and wires the expected result follows each event: where the result differs, the event's line is printed after `! `, and the result. Only rows
//! that are wrong on purpose do so. Of other rows each line is printed after `> `, and the result below it, or below all lines. A row that fails prints `?`.
//!
//! A node, a world, an outcome or a request is let go by `drop`: one step of a proof, where the end of a block takes one for each part of the value.
#![tactic(auto)]

mod events;
mod lists;
mod making;
mod medium;
mod memory_link;
mod node_rows;
mod nodes;
mod noise;
mod playing;
mod printing;
mod rows;
mod runs;
mod scene;
mod scripts;
mod side;
mod sockets;
mod tables;
mod telling;
mod turns;
mod wires;
mod words;
mod worlds;

pub use rows::play_all;
