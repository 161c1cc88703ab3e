//! Lines and columns.
ghost use Rattle.std.specs.Prelude.{◌≡◌, ◌<◌, ◌^◌, ◌-◌};
ghost use Rattle.bac_forms.specs.Positions.{next_position, position_of};

/// A place in a text: its line and its column, both from 1. Columns count octets.
#[derive(Clone, Copy, Debug, PartialEq, Eq)]
pub struct Position {
    pub line: usize,
    pub column: usize,
}

impl Position {
    /// The place behind an octet that stands here.
    fn next(self, octet: u8) -> Position
        requires line { self.line < 2 ^ 64 - 1 }
        requires column { self.column < 2 ^ 64 - 1 }
        ensures { result ≡ next_position self octet }
    {
        if octet == b'\n' {
            Position {
                line: self.line + 1,
                column: 1,
            }
        } else {
            Position {
                line: self.line,
                column: self.column + 1,
            }
        }
    }
}

/// The place behind a text.
pub(crate) fn position_of(text: &[u8]) -> Position
    ensures { result ≡ position_of text.now }
{
    let mut position = Position { line: 1, column: 1 };
    let mut rest = text;
    while let Some((octet, others)) = rest.split_first() {
        position = position.next(*octet);
        rest = others;
    }
    position
}
