//! A node that serves, and whose turns are logged.
ghost use Rattle.std.specs.Prelude.{◌≡◌, IsTrue};
ghost use Rattle.bac_driver.specs.Kept.{keeper_of};
ghost use Rattle.bac_driver.specs.Rounds.{IsKept};
ghost use Rattle.bac_driver.specs.Runs.{timed};
ghost use Rattle.bac_server.specs.Kept.{IsLogged};
ghost use Rattle.bac_commands.specs.Reports.{ReportsServing};
ghost use Rattle.bac_server.specs.Logs.{ServingIsLogged};

use crate::keeping::KeptServer;
use crate::log::{Log, Tally};
use crate::log_settings::LogSettings;
use bac_driver::{BoundNode, Clock, Link, RunLimit};
use bac_keep::Keeper;
use bac_text::Status;
use std::alloc::Global;
use std::io::Write;

/// For how long a node serves, and how its log is written.
#[derive(Clone, Copy, Debug, PartialEq, Eq)]
pub struct ServeCommand {
    /// How many turns it takes, and how long each waits.
    pub limit: RunLimit,
    /// How its log is written.
    pub settings: LogSettings,
}

/// How serving ended, and whether its log is whole.
#[derive(Clone, Copy, Debug, PartialEq, Eq)]
pub struct Logged {
    pub status: Status,
    /// Whether each line of each turn was written.
    pub whole: bool,
}

/// Serves as [`serve`](crate::serve) does, and logs each turn on `err`. The log has a line for the datagram that came, with what was done, and one
/// for each thing else that the turn gave. At most once in 1,000 ms it also says how many requests were turned away since the table was full, and
/// when the next slot gets free.
///
/// Where a line cannot be written, or finds no memory, no further one is, and serving goes on.
pub fn serve_logged<L: Link, C: Clock, O: Write, E: Write>(
    alloc: Global,
    bound_node: &mut BoundNode<L>,
    clock: &mut C,
    command: &ServeCommand,
    out: &mut O,
    err: &mut E,
) -> Logged
    ensures printed { ReportsServing result.status command.now.limit.wait_limit command.now.limit.turns
        (timed bound_node.old (C.told clock.old)) (timed bound_node.new (C.told clock.new)) (O.contents out.old) (O.contents out.new) }
    ensures logged { IsTrue result.whole → ServingIsLogged result.status command.now.settings command.now.limit.wait_limit command.now.limit.turns
        (timed bound_node.old (C.told clock.old)) (timed bound_node.new (C.told clock.new)) (E.contents err.old) (E.contents err.new) }
{
    let mut log = Log {
        alloc,
        settings: command.settings,
        whole: true,
        tally: Tally::NONE_AWAY,
    };
    let status = crate::serve(bound_node, clock, &command.limit, &mut log, out, err);
    Logged {
        status,
        whole: log.whole,
    }
}

/// Serves as [`serve_kept`](crate::serve_kept) does, and logs each turn on `err` as [`serve_logged`] does, before anything of its round is sent.
pub fn serve_kept_logged<L: Link, C: Clock, K: Keeper, O: Write, E: Write>(
    alloc: Global,
    server: &mut KeptServer<L, C, K>,
    command: &ServeCommand,
    out: &mut O,
    err: &mut E,
) -> Logged
    requires { K.IsHonest (keeper_of server.old.round) → IsKept K.IsOpen K.kept K.noted (keeper_of server.old.round) server.old.bound_node.node.store }
    ensures honest { K.IsHonest (keeper_of server.new.round) → K.IsHonest (keeper_of server.old.round) }
    ensures base { K.base (keeper_of server.new.round) ≡ K.base (keeper_of server.old.round) }
    ensures logged { IsLogged result.status result.whole command.now.settings command.now.limit.wait_limit command.now.limit.turns
        K.IsHonest K.IsOpen K.kept K.noted K.may_find (keeper_of server.new.round)
        (timed server.old.bound_node (C.told server.old.clock)) (timed server.new.bound_node (C.told server.new.clock))
        (E.contents err.old) (E.contents err.new) (O.contents out.old) (O.contents out.new) }
{
    let mut log = Log {
        alloc,
        settings: command.settings,
        whole: true,
        tally: Tally::NONE_AWAY,
    };
    let status = crate::serve_kept(server, &command.limit, &mut log, out, err);
    Logged {
        status,
        whole: log.whole,
    }
}
