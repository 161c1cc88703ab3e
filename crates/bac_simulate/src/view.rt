//! What a script's run is shown as.
ghost use Rattle.std.specs.Prelude.{◌≡◌, ◌+◌, map, IfOk, OnOk};
ghost use Rattle.std.specs.Io.KnownBytes.{Appends};
ghost use Rattle.bac_chart.specs.Views.{mark_view};
ghost use Rattle.bac_simulate.specs.Drawn.{shown_text, IsDrawn, IsShown, IsTold, Shows, ShowsAs};
ghost use Rattle.bac_simulate.specs.Scripts.{script_of};
ghost use Rattle.bac_simulate.specs.Views.{line_view};
ghost use Rattle.bac_text.specs.Lines.{lines_of};
ghost use Rattle.bac_text.specs.Texts.{AppendsText};

use crate::bad_line::refuse;
use crate::capture::print_capture;
use crate::event_style::EventStyle;
use crate::moments::parts_in;
use crate::read_script::ReadScript;
use crate::script_reading::read_script;
use crate::simulate::{ended, octets_of, unread};
use crate::telling::print_lines;
use crate::trace::trace_lines;
use bac_chart::{ChartFormat, Mark, print_drawing};
use bac_network::World;
use bac_text::Status;
use std::alloc::Global;
use std::io;
use std::io::{Read, Write};

/// What a script's run is shown as.
#[derive(Clone, Copy, Debug, PartialEq, Eq)]
pub enum View {
    /// Lines of text: each event at its moment, and below it what came of it, or why nothing did.
    Text,
    /// Objects of JSON, one a line: what came of each event.
    Objects,
    /// A sequence chart in text, for a terminal.
    Chart,
    /// A `sequenceDiagram` of Mermaid.
    Mermaid,
    /// A file of pcap: each datagram at the moment of its sending.
    Capture,
}

/// Prints what a run is drawn as, by what came of its lines and the world in which it ended. What is printed in words, or as objects, is no drawing.
fn print_view<W: Write>(
    alloc: Global,
    view: View,
    nodes: u8,
    marks: &[Mark],
    world: &World,
    out: &mut W,
) -> io::Result<()>
    ensures { OnOk result (Appends (W.contents out.old) (W.contents out.new) (shown_text view nodes (map mark_view marks.now) world.now)) }
{
    let nodes = u64::from(nodes);
    match view {
        View::Text => Ok(()),
        View::Objects => Ok(()),
        View::Chart => print_drawing(alloc, ChartFormat::Chart, nodes, marks, out),
        View::Mermaid => print_drawing(alloc, ChartFormat::Mermaid, nodes, marks, out),
        View::Capture => print_capture(alloc, parts_in(world), world.copies(), out),
    }
}

/// Runs a script, and tells what came of each event. Answers whether all lines passed.
fn run_and_tell<O: Write>(
    alloc: Global,
    style: EventStyle,
    script: ReadScript,
    out: &mut O,
) -> io::Result<bool>
    ensures { IfOk result (λ all. AppendsText (O.contents out.old) (O.contents out.new)
        (IsTold style (script.before + 1) (map line_view script.lines.items) all script.world)) }
{
    let ReadScript {
        mut world,
        before,
        lines,
        ..
    } = script;
    print_lines(alloc, style, &mut world, before, &lines, out)
}

/// Runs a script, and then prints what its run is drawn as. Answers whether all lines passed; `err` says which did not.
fn run_and_draw<O: Write, E: Write>(
    alloc: Global,
    view: View,
    script: ReadScript,
    out: &mut O,
    err: &mut E,
) -> io::Result<bool>
    ensures { IfOk result (λ all. AppendsText (O.contents out.old) (O.contents out.new)
        (IsDrawn view script.nodes (script.before + 1) (map line_view script.lines.items) all script.world)) }
{
    let ReadScript {
        nodes,
        mut world,
        before,
        lines,
        ..
    } = script;
    let mut marks = Vec::new(alloc);
    let all = trace_lines(alloc, &mut world, before, &lines, &mut marks, err)?;
    print_view(alloc, view, nodes, &marks, &world, out)?;
    Ok(all)
}

/// Runs a script, and prints what its run is shown as. Answers whether all lines passed.
fn run_and_show<O: Write, E: Write>(
    alloc: Global,
    view: View,
    script: ReadScript,
    out: &mut O,
    err: &mut E,
) -> io::Result<bool>
    ensures { IfOk result (λ all. AppendsText (O.contents out.old) (O.contents out.new)
        (IsShown view script.nodes (script.before + 1) (map line_view script.lines.items) all script.world)) }
{
    match view {
        View::Text => run_and_tell(alloc, EventStyle::Words, script, out),
        View::Objects => run_and_tell(alloc, EventStyle::Objects, script, out),
        View::Chart => run_and_draw(alloc, View::Chart, script, out, err),
        View::Mermaid => run_and_draw(alloc, View::Mermaid, script, out, err),
        View::Capture => run_and_draw(alloc, View::Capture, script, out, err),
    }
}

/// What parts a complaint from its reason: in words they stand on one line.
fn before_reason(view: View) -> &'static str {
    match view {
        View::Text => ": ",
        View::Objects | View::Chart | View::Mermaid | View::Capture => "\n",
    }
}

/// Shows the run of the script that these octets are.
fn show<O: Write, E: Write>(
    alloc: Global,
    view: View,
    notes: bool,
    text: &[u8],
    out: &mut O,
    err: &mut E,
) -> Status
    ensures { Shows view (script_of notes (lines_of text.now)) (O.contents out.old) (O.contents out.new) result }
{
    match read_script(alloc, notes, text) {
        Ok(script) => {
            let ran = run_and_show(alloc, view, script, out, err);
            let flushed = out.flush();
            ended(ran, flushed, err)
        }
        Err(fault) => refuse(alloc, notes, text, fault, Some(before_reason(view)), err),
    }
}

/// Runs a script of events in a network of nodes, as [`simulate_lines_over`](crate::simulate_lines_over) does, and prints what its run is shown as in
/// place of what comes of each event. It answers what that does. What ends the run stands on `err`, behind the events before it in what is shown.
/// Where the run is printed in words, or as objects, it stands on `out`.
pub fn show_over<R: Read, O: Write, E: Write>(
    alloc: Global,
    view: View,
    notes: bool,
    input: &mut R,
    out: &mut O,
    err: &mut E,
) -> Status
    ensures { ShowsAs view notes (R.remaining input.old) (O.contents out.old) (O.contents out.new) result }
{
    match octets_of(alloc, input) {
        Ok(text) => show(alloc, view, notes, &text, out, err),
        Err(error) => unread(&error, err),
    }
}
