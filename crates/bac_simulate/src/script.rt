//! A script, read from its octets.
ghost use Rattle.std.specs.Prelude.{◌≡◌, ◌<◌, ◌≤◌, ◌+◌, ◌^◌, ◌&&◌, true, [], ◌∷◌, length, map, IfOk, MatchOption, MatchResult, Some};
ghost use Rattle.std.specs.List.{position};
ghost use Rattle.bac_simulate.specs.Lines.{setting_at};
ghost use Rattle.bac_text.specs.Lines.{is_line_end, lines_of};
ghost use Rattle.bac_simulate.specs.Scripts.{IsModest, IsNotRead, Reads, ReadsAt, fault_at, limits_in, most_limits, said_at, said_from, script_of};
ghost use Rattle.bac_simulate.specs.Scripts.{admitted, is_of_head, is_start, with_setting};
ghost use Rattle.bac_simulate.specs.Views.{line_view, setting_view};

use crate::line::{ClockPace, ClockStart, Setting};
use crate::line_reading::{read_setting, read_statement};
use crate::world_of::said_by;
use bac_network::{Event, World};
use bac_service_text::FormFault;
use bac_text::read_of;
use bac_value::NoMemory;
use std::alloc::Global;

/// What a line of a script says.
#[derive(Drop)]
pub(crate) enum ScriptLine {
    /// An event is to happen.
    Happens(Event),
    /// The copy of that number counts as lost: a note of the script alone.
    Lost(u64),
    /// It is a note for people.
    Note,
    /// A node's clock begins so, with the script.
    Began(ClockStart),
    /// A node's clock is fast or slow from then on.
    Paced(ClockPace),
}

/// Why octets are no script.
#[derive(Clone, Copy, PartialEq, Eq)]
pub(crate) enum ScriptFault {
    /// The line of that number, counted from 1, has no known form.
    Line(u64),
    NoMemory,
}

impl From<NoMemory> for ScriptFault {
    ghost use Rattle.std.specs.Prelude.{◌≡◌};
    ghost use Rattle.bac_simulate.specs.declared.script.ScriptFault.TheVariants as fault;

    ghost from_gives = { λ _ e. e ≡ fault.NoMemory };

    fn from(_error: NoMemory) -> ScriptFault {
        ScriptFault::NoMemory
    }
}

/// The fault of a line.
fn at_line(number: u64, fault: FormFault) -> ScriptFault
    ensures { result ≡ fault_at number fault }
{
    match fault {
        FormFault::NoForm => ScriptFault::Line(number),
        FormFault::NoMemory => ScriptFault::NoMemory,
    }
}

/// The place of the first end of a line.
fn end_in(text: &[u8]) -> Option<usize>
    ensures { result ≡ position is_line_end text.now }
{
    text.iter().position(|octet| *octet == b'\n')
}

/// The first line without its end, and what comes after it; None where nothing is left. A line ends at octet 0A, which the last may lack.
#[tactic(auto, using(crate::proofs::Parting::no_end, crate::proofs::Parting::at_end))]
pub(crate) fn next_line(text: &[u8]) -> Option<(&[u8], &[u8])>
    ensures { MatchOption result (lines_of text.now ≡ [])
        (λ r. (length r.1.now < length text.now) × (lines_of text.now ≡ r.0.now ∷ lines_of r.1.now)) }
{
    if text.is_empty() {
        return None;
    }
    match end_in(text) {
        Some(end) => Some((&text[..end], &text[end + 1..])),
        None => Some((text, &text[text.len()..])),
    }
}

/// Whether a clock begins by a line.
fn is_start(said: &ScriptLine) -> bool
    ensures { result ≡ is_start (line_view said.now) }
{
    match said {
        ScriptLine::Began(_) => true,
        ScriptLine::Happens(_) | ScriptLine::Lost(_) | ScriptLine::Note | ScriptLine::Paced(_) => {
            false
        }
    }
}

/// Whether a line may stand in the head of a script, in which clocks begin.
fn is_of_head(said: &ScriptLine) -> bool
    ensures { result ≡ is_of_head (line_view said.now) }
{
    match said {
        ScriptLine::Note | ScriptLine::Began(_) | ScriptLine::Paced(_) => true,
        ScriptLine::Happens(_) | ScriptLine::Lost(_) => false,
    }
}

/// Whether the line after that one is in the head of a script too.
fn stays_in_head(in_head: bool, said: &ScriptLine) -> bool
    ensures { result ≡ (in_head && is_of_head (line_view said.now)) }
{
    in_head && is_of_head(said)
}

/// What a line of that number says, where it may say that.
fn admitted(in_head: bool, said: ScriptLine, number: u64) -> Result<ScriptLine, ScriptFault>
    ensures { ReadsAt line_view result number (admitted in_head (line_view said)) }
{
    if is_start(&said) && !in_head {
        return Err(ScriptFault::Line(number));
    }
    Ok(said)
}

/// What the line of that number says in a world.
fn said_in(
    alloc: Global,
    world: &World,
    notes: bool,
    in_head: bool,
    line: &[u8],
    number: u64,
) -> Result<ScriptLine, ScriptFault>
    ensures { ReadsAt line_view result number (said_at notes in_head (limits_in world.now.nodes) line.now) }
{
    let Some(read) = read_of(notes, line) else {
        return Ok(ScriptLine::Note);
    };
    match read_statement(alloc, read) {
        Ok(step) => admitted(in_head, said_by(world, step), number),
        Err(fault) => Err(at_line(number, fault)),
    }
}

/// What lines say in a world, where so many lines stand before them; in the head of a script clocks may begin.
pub(crate) fn lines_in(
    alloc: Global,
    world: &World,
    notes: bool,
    head: bool,
    before: u64,
    text: &[u8],
) -> Result<Vec<ScriptLine>, ScriptFault>
    requires { before + length text.now < 2 ^ 64 }
    ensures read { Reads (λ lines. map line_view lines.items) result
        (said_from notes head (limits_in world.now.nodes) (before + 1) (lines_of text.now)) }
    ensures few { IfOk result (λ lines. length lines.items ≤ length text.now) }
{
    let mut lines = Vec::new(alloc);
    let mut rest = text;
    let mut number = before;
    let mut in_head = head;
    while let Some((line, more)) = next_line(rest) {
        number += 1;
        let said = said_in(alloc, world, notes, in_head, line, number)?;
        in_head = stays_in_head(in_head, &said);
        lines.push(said).map_err(NoMemory::from)?;
        rest = more;
    }
    Ok(lines)
}

/// What the first line of a script sets that is no note, its number, and the lines after it.
#[derive(Drop)]
pub(crate) struct FirstLine<'a> {
    pub(crate) setting: Setting,
    pub(crate) number: u64,
    pub(crate) rest: &'a [u8],
}

/// What the line of that number sets.
fn first_in(alloc: Global, line: &[u8], number: u64) -> Result<Setting, ScriptFault>
    ensures { ReadsAt setting_view result number (setting_at line.now) }
{
    match read_setting(alloc, line) {
        Ok(setting) => Ok(setting),
        Err(fault) => Err(at_line(number, fault)),
    }
}

/// What the first line of a script sets that is no note.
pub(crate) fn read_first<'a>(
    alloc: Global,
    notes: bool,
    text: &'a [u8],
) -> Result<FirstLine<'a>, ScriptFault>
    ensures read { MatchResult result
        (λ r. script_of notes (lines_of text.now) ≡ with_setting r.number (Some (setting_view r.setting))
        (said_from notes true (λ node. most_limits) (r.number + 1) (lines_of r.rest.now)))
        (λ f. IsNotRead f (script_of notes (lines_of text.now))) }
    ensures modest { IfOk result (λ r. IsModest (setting_view r.setting)) }
    ensures few { IfOk result (λ r. r.number + length r.rest.now ≤ length text.now) }
{
    let mut left = text;
    let mut number = 1;
    while let Some((line, rest)) = next_line(left) {
        if let Some(read) = read_of(notes, line) {
            let setting = first_in(alloc, read, number)?;
            return Ok(FirstLine {
                setting,
                number,
                rest,
            });
        }
        left = rest;
        number += 1;
    }
    Err(ScriptFault::Line(number))
}
