//! Where a line stands.
use std::alloc::Global;
use std::fmt;

/// The file whose lines are read, and what its words are allocated by.
#[derive(Clone, Copy)]
pub(crate) struct Source<'p> {
    pub(crate) alloc: Global,
    /// The name of the file; `-` is standard input.
    pub(crate) path: &'p str,
}

/// The place of a line, which is printed before what is wrong with it.
#[derive(Clone, Copy)]
pub(crate) struct LinePlace<'p> {
    path: &'p str,
    number: u64,
}

impl<'p> Source<'p> {
    /// The line of that number.
    pub(crate) fn line(self, number: u64) -> LinePlace<'p> {
        LinePlace {
            path: self.path,
            number,
        }
    }
}

impl fmt::Display for LinePlace<'_> {
    fn fmt<W: fmt::Write>(&self, f: &mut fmt::Formatter<W>) -> fmt::Result {
        let LinePlace { path, number } = *self;
        if path != "-" {
            write!(f, "{path}: ")?;
        }
        write!(f, "line {number}: ")
    }
}
