//! Text in lines that are not too wide.
use std::io;
use std::io::Write;

/// How lines are written.
#[derive(Clone, Copy, Debug)]
pub(crate) struct Layout {
    /// The most characters of a line.
    width: usize,
    /// Whether they are lines of roff, which shows each hyphen and backslash, and no request at the front.
    is_page: bool,
}

/// Lines of a terminal.
pub(crate) const SCREEN: Layout = Layout {
    width: 80,
    is_page: false,
};

/// Lines of the page of the manual that it fills anew.
pub(crate) const FILLED: Layout = Layout {
    width: 80,
    is_page: true,
};

/// Lines that the page shows as they are, behind seven spaces.
pub(crate) const SHOWN: Layout = Layout {
    width: 73,
    is_page: true,
};

impl Layout {
    /// Whether an octet is written behind a backslash.
    fn escapes(self, octet: u8) -> bool {
        self.is_page && (octet == b'-' || octet == b'\\')
    }

    /// How many characters are written of a text.
    fn width_of(self, text: &str) -> usize {
        let mut width = text.len();
        for octet in text.as_bytes() {
            if self.escapes(*octet) {
                width = width.saturating_add(1);
            }
        }
        width
    }

    /// Writes a text without a line feed in it.
    pub(crate) fn write_text<O: Write>(self, out: &mut O, text: &str) -> io::Result<()> {
        if !self.is_page {
            return out.write_all(text.as_bytes());
        }
        for octet in text.as_bytes() {
            match *octet {
                b'\\' => out.write_all(b"\\e")?,
                b'-' => out.write_all(b"\\-")?,
                octet => out.write_all(&[octet])?,
            }
        }
        Ok(())
    }

    /// Writes what a line begins with, before that text: so many spaces, and nothing that is a request of roff.
    fn begin_line<O: Write>(self, out: &mut O, spaces: usize, text: &str) -> io::Result<()> {
        if self.is_page && spaces == 0 && (text.starts_with('.') || text.starts_with('\'')) {
            out.write_all(b"\\&")?;
        }
        for _space in 0..spaces {
            out.write_all(b" ")?;
        }
        Ok(())
    }
}

/// How many spaces are before the first line of a text, and before each further one.
#[derive(Clone, Copy, Debug)]
struct Indents {
    first: usize,
    further: usize,
}

/// Writes a text in lines that break between words, and a line feed, with this mark at the end of each line that goes on. A word that is too long for a line has one of
/// its own.
fn write_marked<O: Write>(
    out: &mut O,
    layout: Layout,
    indents: Indents,
    mark: &str,
    text: &str,
) -> io::Result<()> {
    let width = layout.width.saturating_sub(layout.width_of(mark));
    layout.begin_line(out, indents.first, text)?;
    let mut column = indents.first;
    for (place, word) in text.split(' ').enumerate() {
        let long = layout.width_of(word);
        let end = column.saturating_add(long).saturating_add(1);
        if place > 0 && end > width {
            layout.write_text(out, mark)?;
            out.write_all(b"\n")?;
            layout.begin_line(out, indents.further, word)?;
            column = indents.further;
        } else if place > 0 {
            out.write_all(b" ")?;
            column = column.saturating_add(1);
        }
        layout.write_text(out, word)?;
        column = column.saturating_add(long);
    }
    out.write_all(b"\n")
}

/// Writes a text behind so many spaces, and a line feed. Lines break between words, and each begins behind these spaces. A word that is too long for a line has one of
/// its own.
pub(crate) fn write_wrapped<O: Write>(
    out: &mut O,
    layout: Layout,
    spaces: usize,
    text: &str,
) -> io::Result<()> {
    let indents = Indents {
        first: spaces,
        further: spaces,
    };
    write_marked(out, layout, indents, "", text)
}

/// What a line of the shell that goes on ends with, of an example; nothing of another line.
fn mark_of(line: &str) -> &'static str {
    if line.starts_with("Example: ") {
        " \\"
    } else {
        ""
    }
}

/// How many spaces a line begins with.
fn spaces_before(line: &str) -> usize {
    line.len().saturating_sub(line.trim_start().len())
}

/// Writes the lines of a text, each broken as by [`write_wrapped`], and behind four more spaces where it goes on; an example goes on behind a backslash.
pub(crate) fn write_lines<O: Write>(out: &mut O, layout: Layout, text: &str) -> io::Result<()> {
    for line in text.lines() {
        let first = spaces_before(line);
        let further = first.saturating_add(4);
        let indents = Indents { first, further };
        write_marked(out, layout, indents, mark_of(line), line.trim_start())?;
    }
    Ok(())
}
