//! A log, written turn by turn.
ghost use Rattle.std.specs.Prelude.{◌≡◌, OnOk};
ghost use Rattle.bac_text.specs.Texts.{AppendsText};
ghost use Rattle.bac_driver.specs.Seen.{seen};
ghost use Rattle.bac_driver.specs.Views.{turn_view};
ghost use Rattle.bac_server.specs.Lines.{AreLogLines, counts_away, is_turned_away};
ghost use Rattle.bac_server.specs.Logs.{NONE_AWAY, told_at};

use crate::lines::turn_lines;
use crate::log_settings::LogSettings;
use crate::turned_away::{counts_away, full_text, is_said, is_turned_away};
use bac_driver::{Observer, Turn};
use bac_node::Node;
use std::alloc::Global;
use std::io;
use std::io::Write;

/// How many requests were turned away since the table was full.
#[derive(Clone, Copy, PartialEq, Eq)]
pub(crate) struct Tally {
    /// Since the last line that said so.
    pub(crate) away: u64,
    /// The moment of that line, if there was one.
    pub(crate) said: Option<u64>,
}

impl Tally {
    /// None was turned away, and nothing was said.
    pub(crate) const NONE_AWAY: Tally = Tally {
        away: 0,
        said: None,
    };

    /// How many were turned away, with what a turn did.
    pub(crate) fn counted(&self, settings: &LogSettings, node: &Node, turn: &Turn) -> u64
        ensures { result ≡ counts_away (is_turned_away settings.now (turn_view turn.now) node.now.servers) self.now.away }
    {
        counts_away(is_turned_away(settings, node, turn), self.away)
    }

    /// The tally where `away` were turned away up to a moment: the same count, or none once it is said at that moment.
    pub(crate) fn told_at(&self, at: u64, away: u64) -> Tally
        ensures { result ≡ told_at at away self.now }
    {
        if is_said(at, away, self.said) {
            Tally {
                away: 0,
                said: Some(at),
            }
        } else {
            Tally {
                away,
                said: self.said,
            }
        }
    }
}

/// The log of a server. Where a line cannot be written, no further one is: it is no longer whole.
#[derive(Drop)]
pub(crate) struct Log {
    pub(crate) alloc: Global,
    pub(crate) settings: LogSettings,
    /// Whether each line was written.
    pub(crate) whole: bool,
    pub(crate) tally: Tally,
}

/// Writes the lines of a turn, and then how many were turned away so far.
fn write_turn<W: Write>(
    log: &Log,
    away: u64,
    node: &Node,
    buffer: &[u8],
    turn: &Turn,
    out: &mut W,
) -> io::Result<()>
    ensures { OnOk result (AppendsText (W.contents out.old) (W.contents out.new)
        (AreLogLines log.now.settings (seen node.now buffer.now (turn_view turn.now)) away log.now.tally.said)) }
{
    let tally = Tally { away, ..log.tally };
    let mut lines = turn_lines(log.alloc, log.settings, node, buffer, turn)?;
    let full = full_text(log.alloc, log.settings.format, turn.at, tally, node)?;
    lines.extend_from_slice(full.as_slice())?;
    out.write_all(lines.as_slice())
}

impl<W: Write> Observer<W> for Log {
    ghost use Rattle.bac_server.specs.Logs as logs;

    ghost State = { logs.Log };

    ghost state = { λ l out. record { settings = l.settings; whole = l.whole; tally = l.tally; text = W.contents out } };

    ghost Sees = { logs.Logs };

    fn on_turn(&mut self, node: &Node, buffer: &[u8], turn: &Turn, out: &mut W) {
        if self.whole {
            let away = self.tally.counted(&self.settings, node, turn);
            self.whole = write_turn(self, away, node, buffer, turn, out).is_ok();
            self.tally = self.tally.told_at(turn.at, away);
        }
    }
}
