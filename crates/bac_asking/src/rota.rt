//! Whose turn it is among the nodes of a client that asks lines several at once: [`Rota`].
ghost use Rattle.std.specs.Prelude.{◌<◌, IfSome};

/// So many turns in a row a node takes at the most before another one has its turn.
pub(crate) const IN_A_ROW: u64 = 64;

/// The node that asks takes turns as long as something comes of them, but at most 64 in a row. Then one of the nodes that leave has its turns, each time another
/// one: a turn of a silent one costs some milliseconds, even where it may not wait.
#[derive(Drop)]
pub(crate) struct Rota {
    /// So many turns in a row the node that asks has taken.
    in_a_row: u64,
    /// The place among those that leave of the one that had its turns last; those before it have theirs next.
    last: usize,
}

impl Rota {
    pub(crate) fn new() -> Rota {
        Rota {
            in_a_row: 0,
            last: 0,
        }
    }

    /// The place of the one whose turns are next, where so many leave: the one before the last that had them, and the last of all after the first.
    fn pass_on(&mut self, leaving: usize) -> Option<usize>
        ensures { IfSome result (λ at. at < leaving) }
    {
        let before = if self.last == 0 {
            leaving
        } else {
            self.last.min(leaving)
        };
        let at = before.checked_sub(1)?;
        self.last = at;
        Some(at)
    }

    /// The node that asks has taken a turn, and something came of it where `is_busy` is true. The place of the one whose turns are next among those that leave,
    /// of which there are so many; None where the node that asks takes the next turn.
    pub(crate) fn after(&mut self, is_busy: bool, leaving: usize) -> Option<usize>
        ensures { IfSome result (λ at. at < leaving) }
    {
        if is_busy && self.in_a_row < IN_A_ROW - 1 {
            self.in_a_row += 1;
            return None;
        }
        self.in_a_row = 0;
        self.pass_on(leaving)
    }
}
