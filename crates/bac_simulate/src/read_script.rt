//! A script that was read.
ghost use Rattle.std.specs.Prelude.{◌+◌, ◌<◌, ◌^◌, vec_len};

use crate::script::ScriptLine;
use bac_network::World;

/// A script: its network, in which nothing has happened yet, how many lines stand before the events, and what these say.
#[derive(Drop)]
pub(crate) struct ReadScript {
    /// How many nodes it has.
    pub nodes: u8,
    pub world: World,
    pub before: u64,
    pub lines: Vec<ScriptLine>,
    pub ghost few: { before + vec_len lines < 2 ^ 64 },
}
