//! What `Node::new` is given beside the store. Whoever makes a node fills it in: a new field is a change of the interface.
ghost use Rattle.std.specs.Prelude.{◌≡◌, ◌↔◌, true, IfSome, IsSome};
ghost use Rattle.bac_transaction.specs.Views.{settings_view};
ghost use Rattle.bac_node.specs.Fresh.{slots_within, window_fits};
ghost use Rattle.bac_node.specs.Views.{settings_of};

use bac_apdu::{Limits, Window};
use bac_npdu::LinkAddress;
use bac_transaction::Settings;

/// The configuration of a node.
#[derive(Clone, Copy, Debug, PartialEq, Eq)]
pub struct Config {
    /// The node's own address on its link.
    pub link: LinkAddress,
    /// What it takes of APDUs and of segments (clause 20.1.2).
    pub limits: Limits,
    /// The largest window that it proposes or grants: 1 to 64 segments (clause 5.3).
    pub window: u8,
    /// How many transactions of the client it has room for: 1 to 1,024, or to 65,536 of a node with large tables.
    pub client_slots: usize,
    /// How many transactions of the server it has room for: 1 to 1,024, or to 65,536 of a node with large tables.
    pub reply_slots: usize,
}

/// Whether a table may have so many slots, where it may have that many at the most.
pub(crate) fn slots_within(most: usize, slots: usize) -> bool
    ensures { result ≡ slots_within most slots }
{
    slots >= 1 && slots <= most
}

/// The settings of a node; None where its window is not 1 to 64.
pub(crate) fn settings_of(config: &Config) -> Option<Settings>
    ensures some { IsSome result ↔ (window_fits config.now.window ≡ true) }
    ensures same { IfSome result (λ s. settings_view s ≡ settings_of config.now) }
{
    if config.window > 64 {
        return None;
    }
    let window = Window::new(config.window)?;
    Some(Settings {
        limits: config.limits,
        window,
    })
}
