//! The table of a device's points in aligned columns, for a terminal.

use crate::points::Cell;
use bac_value::ObjectIdentifier;
use bac_value_text::object_text;
use std::alloc::{AllocError, Global};

/// How many spaces stand between columns at the least.
const GAP: usize = 2;

/// The names of the columns behind the object.
pub(crate) const NAMES: [&str; 5] = ["name", "value", "units", "description", "status"];

/// How wide the columns of a table are, in characters.
#[derive(Clone, Copy, Debug)]
pub struct Widths {
    object: usize,
    cells: [usize; 5],
}

/// How many characters a text has, if it is UTF-8.
fn width_of(text: &[u8]) -> usize {
    let mut width: usize = 0;
    for octet in text {
        // the octets of a character behind its first begin with the bits 10
        if *octet < 0x80 || *octet >= 0xC0 {
            width = width.saturating_add(1);
        }
    }
    width
}

/// A line whose texts are put into columns.
#[derive(Drop)]
struct Line {
    text: Vec<u8>,
    /// How many spaces stand before the next text, if there is one.
    spaces: usize,
}

impl Line {
    /// Adds a text in a column of that width.
    fn add(&mut self, text: &[u8], width: usize) -> Result<(), AllocError> {
        if !text.is_empty() {
            for _ in 0..self.spaces {
                self.text.push(b' ')?;
            }
            self.text.extend_from_slice(text)?;
            self.spaces = 0;
        }
        let left = width.saturating_sub(width_of(text)).saturating_add(GAP);
        self.spaces = self.spaces.saturating_add(left);
        Ok(())
    }

    fn end(self) -> Result<Vec<u8>, AllocError> {
        let mut text = self.text;
        text.push(b'\n')?;
        Ok(text)
    }
}

impl Widths {
    /// As wide as the names of the columns.
    pub fn new() -> Widths {
        Widths {
            object: 6,
            cells: [4, 5, 5, 11, 6],
        }
    }

    /// Widens the first column for an object. An Err is out of memory.
    pub fn widen_object(
        &mut self,
        alloc: Global,
        object: ObjectIdentifier,
    ) -> Result<(), AllocError> {
        let text = object_text(alloc, object)?;
        self.object = self.object.max(width_of(&text));
        Ok(())
    }

    /// Widens the other columns for the cells of a line.
    pub fn widen(&mut self, cells: &[Cell]) {
        for place in 0..5 {
            if let Some(cell) = cells.get(place) {
                self.cells[place] = self.cells[place].max(width_of(&cell.text));
            }
        }
    }

    /// The line with the names of the columns. An Err is out of memory.
    pub fn names_line(&self, alloc: Global) -> Result<Vec<u8>, AllocError> {
        let mut line = Line {
            text: Vec::new(alloc),
            spaces: 0,
        };
        line.add(b"object", self.object)?;
        for place in 0..5 {
            line.add(NAMES[place].as_bytes(), self.cells[place])?;
        }
        line.end()
    }

    /// The line of an object. An Err is out of memory.
    pub fn line(
        &self,
        alloc: Global,
        object: ObjectIdentifier,
        cells: &[Cell],
    ) -> Result<Vec<u8>, AllocError> {
        let object = object_text(alloc, object)?;
        let mut line = Line {
            text: Vec::new(alloc),
            spaces: 0,
        };
        line.add(&object, self.object)?;
        for place in 0..5 {
            if let Some(cell) = cells.get(place) {
                line.add(&cell.text, self.cells[place])?;
            }
        }
        line.end()
    }
}
