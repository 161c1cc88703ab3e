//! Text that others wrote, shown to people: on its way out, what would act on a terminal or hide is escaped.
#![tactic(auto)]

mod escape;
mod form;
mod front;
mod harmful;
mod laws;
mod piece;
mod sending;
mod shown;
mod written;

pub use form::Form;
pub use laws::{nothing_harmful_is_shown, plain_texts_are_unchanged};
pub use shown::Shown;
pub use written::Written;
