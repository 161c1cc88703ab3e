//! What is missing of a text that is written line by line: [`Gap`].
ghost use Rattle.std.specs.Prelude.{◌≡◌, ◌≤◌, length, true, IsTrue};
ghost use Rattle.bac_serving.specs.Gaps.{PIECE as piece_limit, after_dropped, after_told, after_written, is_open, is_untold};

/// How many octets are written at once at the most. So many take one page of a pipe, and where the system says that a pipe has room, one is free.
const PIECE: usize = 4_096;

/// What became of the line that is being written.
#[derive(Clone, Copy)]
pub(crate) enum Line {
    /// It has not begun.
    Next,
    /// What there is of it was written.
    Written,
    /// Something of it was dropped, and its rest is dropped too.
    Dropped,
}

/// What was dropped of a text since it was told last.
#[derive(Clone, Copy)]
pub(crate) struct Gap {
    pub line: Line,
    /// Whether the end of a line is missing whose beginning was written.
    pub is_cut: bool,
    /// How many lines were dropped, in whole or in part, at most 2^64 - 1.
    pub lines: u64,
}

/// The next piece of a text: its first line, or as much of that as is written at once.
pub(crate) fn piece_of(text: &[u8]) -> &[u8]
    ensures within { length result.now ≤ length text.now }
    ensures short { length result.now ≤ piece_limit }
{
    let most = &text[..text.len().min(PIECE)];
    match most.iter().position(|octet| *octet == b'\n') {
        Some(end) => &most[..=end],
        None => most,
    }
}

/// Whether a piece ends its line.
pub(crate) fn ends_line(piece: &[u8]) -> bool {
    piece.last() == Some(&b'\n')
}

impl Gap {
    /// Nothing is missing.
    pub(crate) const NONE: Gap = Gap {
        line: Line::Next,
        is_cut: false,
        lines: 0,
    };

    /// Whether the next piece belongs to a line of which something was dropped.
    pub(crate) fn is_open(&self) -> bool
        ensures { result ≡ is_open self.now }
    {
        matches!(self.line, Line::Dropped)
    }

    /// Whether lines were dropped that are not told, and the next line has not begun.
    pub(crate) fn is_untold(&self) -> bool
        ensures { result ≡ is_untold self.now }
    {
        self.lines > 0 && matches!(self.line, Line::Next)
    }

    /// A piece was written, with which its line may end.
    pub(crate) fn write(&mut self, is_end: bool)
        ensures { self.new ≡ after_written is_end self.old }
    {
        self.line = if is_end { Line::Next } else { Line::Written };
    }

    /// A piece was dropped, with which its line may end.
    pub(crate) fn drop_piece(&mut self, is_end: bool)
        ensures { self.new ≡ after_dropped is_end self.old }
    {
        self.is_cut = self.is_cut || matches!(self.line, Line::Written);
        if is_end {
            self.line = Line::Next;
            self.lines = self.lines.saturating_add(1);
        } else {
            self.line = Line::Dropped;
        }
    }

    /// What was dropped so far was told.
    pub(crate) fn tell(&mut self)
        ensures { self.new ≡ after_told self.old }
    {
        self.is_cut = false;
        self.lines = 0;
    }
}
