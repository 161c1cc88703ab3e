//! The texts of requests, replies and errors, for `decode`, `explain`, charts, the log of `serve`, `ask` and scripts.
//!
//! Each service has a file with the words of its requests (printed and read), its labels for charts, its decoded lines and its replies.
//! `dispatch` contains every `match` over the services, so a new service needs a file of its own and changes in `dispatch`, here and in
//! specs/.
#![tactic(auto)]

mod answer;
mod asked;
mod atomic_read_file;
mod atomic_write_file;
mod bad_words;
mod dispatch;
mod form_fault;
mod members;
mod read_property;
mod reasons;
mod reference;
mod service_data;
mod strings;
mod write_property;

pub use answer::{answer_words, octets_of_reply, print_reply, reply_words};
pub use asked::names_other;
pub use bad_words::{BadWord, Wanted, bad_word};
pub use dispatch::{
    print_complex, print_request, property_read, read_request_words, reads_file, request_words,
};
pub use form_fault::FormFault;
pub use reasons::{abort_words, aborted_words, error_words, rejected_words};
pub use reference::{object_or_fault, octets_or_fault};
pub use service_data::{reply_data_words, request_data_label, request_data_words, segments_text};
