//! What a round remembers. Its methods are in `rounds`.
ghost use Rattle.std.specs.Prelude.{◌≡◌, ◌≤◌, map, vec_capacity};
ghost use Rattle.bac_driver.specs.Rounds.{ROUND as MOST, change_store};
ghost use Rattle.bac_driver.specs.Serving.{performed_in};
ghost use Rattle.bac_driver.specs.Views.{turn_view};

use crate::turn::Turn;

/// The greatest number of turns in a round.
pub(crate) const ROUND: usize = 32;

/// Who keeps the store of a node that serves in rounds, and what a round remembers: its turns, whose sends are held until what they changed is kept.
#[derive(Drop)]
pub struct Round<K> {
    pub(crate) keeper: K,
    pub(crate) turns: Vec<Turn>,
    pub(crate) performed: u64,
    pub(crate) is_changed: bool,
    // so that a turn is remembered without an allocation
    ghost room: { MOST ≤ vec_capacity turns },
    ghost counted: { performed ≡ performed_in (map turn_view turns.items) },
    ghost changed: { is_changed ≡ change_store (map turn_view turns.items) },
}
