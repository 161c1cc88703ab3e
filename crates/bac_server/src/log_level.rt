//! A log that tells of some turns, and how many requests were turned away since the table was full; it shows long octets by their first ones.
ghost use Rattle.std.specs.Prelude.{⊤};

use crate::event_text::event_text;
use crate::lines::turn_lines;
use crate::log::Tally;
use crate::log_settings::LogSettings;
use crate::shortening::shortened;
use crate::turned_away::full_text;
use bac_driver::{Observer, Turn};
use bac_log_json::LogEvent;
use bac_node::Node;
use std::alloc::Global;
use std::io;
use std::io::Write;

/// Which turns a log tells of. Each tells of turns in which something could not be sent, or found no memory, too, and of requests that were turned away since
/// the table was full.
#[derive(Clone, Copy, Debug, PartialEq, Eq)]
pub enum LogLevel {
    /// Those that performed a write or an append.
    Changes,
    /// Those that performed a request.
    Requests,
    /// All.
    All,
}

impl LogLevel {
    /// Whether a log tells of a turn.
    fn tells(self, turn: &Turn) -> bool {
        if turn.lost > 0 || turn.skipped() > 0 {
            return true;
        }
        match self {
            LogLevel::Changes => turn.changes_store(),
            LogLevel::Requests => turn.effect().is_some(),
            LogLevel::All => true,
        }
    }
}

/// How long octets are shown.
#[derive(Clone, Copy, Debug, PartialEq, Eq)]
pub enum OctetStyle {
    /// All of them.
    Whole,
    /// By their first 32, and how many they are.
    Short,
}

/// The log of a server: the lines of the turns that its level tells of, those of a turn in one write. At most once in 1,000 ms it also says how many requests
/// were turned away since the table was full, and when the next slot gets free. Where a line cannot be written, or finds no memory, no further one is: it is no
/// longer whole.
#[derive(Drop)]
pub struct LevelLog {
    alloc: Global,
    settings: LogSettings,
    level: Option<LogLevel>,
    octet_style: OctetStyle,
    is_whole: bool,
    tally: Tally,
}

/// Lines, with long octets as the log shows them.
fn shown(log: &LevelLog, lines: Vec<u8>) -> io::Result<Vec<u8>> {
    match log.octet_style {
        OctetStyle::Whole => Ok(lines),
        OctetStyle::Short => Ok(shortened(log.alloc, log.settings.format, &lines)?),
    }
}

/// The lines of a turn, where the log tells of it, and then how many requests were turned away, where that is said.
fn lines_of(log: &LevelLog, node: &Node, buffer: &[u8], turn: &Turn) -> io::Result<Vec<u8>> {
    let mut lines = if log.tells(turn) {
        let whole = turn_lines(log.alloc, log.settings, node, buffer, turn)?;
        shown(log, whole)?
    } else {
        Vec::new(log.alloc)
    };
    let full = full_text(log.alloc, log.settings.format, turn.at, log.tally, node)?;
    lines.extend_from_slice(full.as_slice())?;
    Ok(lines)
}

impl LevelLog {
    /// A log of a server. Without a level it tells of nothing.
    pub fn new(
        alloc: Global,
        settings: LogSettings,
        level: Option<LogLevel>,
        octet_style: OctetStyle,
    ) -> LevelLog {
        LevelLog {
            alloc,
            settings,
            level,
            octet_style,
            is_whole: true,
            tally: Tally::NONE_AWAY,
        }
    }

    /// Whether each line was written.
    pub fn is_whole(&self) -> bool {
        self.is_whole
    }

    /// Whether it tells of anything.
    pub fn is_on(&self) -> bool {
        self.is_whole && self.level.is_some()
    }

    /// Writes the line of an event that is of no turn, at a moment, with long octets as the log shows them. None is written where nothing is told, or the log is
    /// no longer whole.
    pub fn write_event<W: Write>(&mut self, at: u64, event: LogEvent<'_>, out: &mut W) {
        if self.is_on() {
            self.is_whole = self.write_line(at, event, out).is_ok();
        }
    }

    /// Ends it: `log fault` where a line could not be written.
    pub fn end<W: Write>(self, out: &mut W) {
        if !self.is_whole {
            // if that fails too, nothing is printed
            let _ = out.writeln("log fault");
        }
    }

    /// Writes the line of an event that is of no turn.
    fn write_line<W: Write>(&self, at: u64, event: LogEvent<'_>, out: &mut W) -> io::Result<()> {
        let line = event_text(self.alloc, self.settings.format, at, event)?;
        let shown = shown(self, line)?;
        out.write_all(shown.as_slice())
    }

    /// Whether it tells of a turn.
    fn tells(&self, turn: &Turn) -> bool {
        match self.level {
            Some(level) => level.tells(turn),
            None => false,
        }
    }

    /// Writes the lines of a turn, and then how many were turned away so far.
    fn write_turn<W: Write>(
        &self,
        node: &Node,
        buffer: &[u8],
        turn: &Turn,
        out: &mut W,
    ) -> io::Result<()> {
        let lines = lines_of(self, node, buffer, turn)?;
        out.write_all(lines.as_slice())
    }
}

impl<W: Write> Observer<W> for LevelLog {
    ghost State = { Unit {0} };

    ghost state = { λ _ _. tt };

    ghost Sees = { λ _ _ _. ⊤ };

    fn on_turn(&mut self, node: &Node, buffer: &[u8], turn: &Turn, out: &mut W) {
        if self.is_on() {
            let away = self.tally.counted(&self.settings, node, turn);
            // the lines of this turn tell of it
            self.tally.away = away;
            self.is_whole = self.write_turn(node, buffer, turn, out).is_ok();
            self.tally = self.tally.told_at(turn.at, away);
        }
    }
}
