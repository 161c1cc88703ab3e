//! Who asks: a line of a list, or none.
use bac_ask_report::LineName;

/// The line that asks, as records name it.
#[derive(Clone, Copy, Debug)]
pub struct Asker<'n> {
    /// Its number, from 1 on; None where no line asks.
    pub line: Option<u64>,
    /// Its name, or what its absence says.
    pub name: LineName<'n>,
}

/// No line of a list asks.
pub const NO_LINE: Asker<'static> = Asker {
    line: None,
    name: LineName::Unnamed,
};
