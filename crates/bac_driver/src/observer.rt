//! Observers: who sees the turns of a node that serves or asks, say to print a log.
//!
//! `BoundNode::serve_observed` and `BoundNode::ask_observed` call [`Observer::on_turn`]. Programs implement the trait: a change of it is a change of the
//! interface.
ghost use Rattle.std.specs.Prelude.{⊤};
ghost use Rattle.bac_driver.specs.Seen.{Seen, seen};
ghost use Rattle.bac_driver.specs.Views.{turn_view};

use crate::turn::Turn;
use bac_node::Node;

/// Sees the turns of a node, each once and in order, and may write to an output.
pub trait Observer<W> {
    // What it knows, and what the output holds.
    ghost State: { Type 0 };

    ghost state: { Self → W → State };

    // What it does with a turn.
    ghost Sees: { Seen → (old new : State) → Type 0 };

    /// A turn was taken. It gets the node after the turn, the buffer of the bound node, whose first octets are the datagram that came, and what the turn
    /// returned. It can't stop the node, so it should not wait.
    fn on_turn(&mut self, node: &Node, buffer: &[u8], turn: &Turn, out: &mut W)
        ensures { Sees (seen node.now buffer.now (turn_view turn.now)) (state self.old out.old) (state self.new out.new) };
}

/// Ignores each turn.
#[derive(Clone, Copy, Debug, PartialEq, Eq)]
pub struct NoObserver;

impl<W> Observer<W> for NoObserver {
    ghost State = { Unit {0} };

    ghost state = { λ _ _. tt };

    ghost Sees = { λ _ _ _. ⊤ };

    fn on_turn(&mut self, _node: &Node, _buffer: &[u8], _turn: &Turn, _out: &mut W) {}
}
