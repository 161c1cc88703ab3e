//! `bac explain --html`: what a capture shows of transactions, as one page of HTML that needs nothing else.
//!
//! Each transaction is a row of a table, with a picture below it: an arrow for each of its frames. A script in the page sorts the rows, the slowest first,
//! and filters them.
#![tactic(auto)]

mod escape;
mod explain;
mod laws;
mod note;
mod page;
mod picture;
mod row;

pub use explain::explain_html_over;
pub use laws::escaped_texts_have_no_markup;
