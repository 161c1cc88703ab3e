//! Whole files of a peer: what `get`, `put`, `backup`, `restore`, and `ask` of a whole file do. How the parts that it answers with become a file, in which parts a file is read
//! and written, what a folder of such files says of them, and how a file is compared with it.
#![tactic(auto)]

mod backup;
mod comparing;
mod file_news;
mod file_task;
mod folder;
mod gathering;
mod listed_files;
mod manifest;
mod named_file;
mod part_fault;
mod part_size;
mod peer_file;
mod reasons;
mod saved_files;
mod whole_files;
mod whole_reading;
mod whole_writing;

pub use file_task::{
    ChosenFiles, FileTask, FileWork, do_with_files, file_task_of, file_work_of, work_of,
};
