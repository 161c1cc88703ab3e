//! Facts, one a line.
ghost use Rattle.std.specs.Prelude.{OnOk};
ghost use Rattle.std.specs.Io.KnownBytes.{Appends};
ghost use Rattle.bac_requester.specs.TransactionViews.{ending_view};
ghost use Rattle.bac_commands.specs.Facts.{asked_line, changed_line, ended_line, fault_line, nothing_line, performed_line, refused_line, sent_line};

use super::ending::print_ending_line;
use bac_requester::Ending;
use std::alloc::Global;
use std::io;
use std::io::Write;

/// Prints that an ask was accepted, with that number and invoke ID.
pub fn print_asked<W: Write>(number: u64, invoke_id: u8, out: &mut W) -> io::Result<()>
    ensures { OnOk result (Appends (W.contents out.old) (W.contents out.new) (asked_line number invoke_id)) }
{
    writeln!(out, "asked {number} id {invoke_id}")
}

/// Prints that an ask was refused, by the number of the fault.
pub fn print_refused<W: Write>(fault: u8, out: &mut W) -> io::Result<()>
    ensures { OnOk result (Appends (W.contents out.old) (W.contents out.new) (refused_line fault)) }
{
    writeln!(out, "refused {fault}")
}

/// Prints that the request of the ask with that number was performed.
pub fn print_performed<W: Write>(number: u64, out: &mut W) -> io::Result<()>
    ensures { OnOk result (Appends (W.contents out.old) (W.contents out.new) (performed_line number)) }
{
    writeln!(out, "performed {number}")
}

/// Prints that the node with that number changed its own store.
pub fn print_changed<W: Write>(node: u64, out: &mut W) -> io::Result<()>
    ensures { OnOk result (Appends (W.contents out.old) (W.contents out.new) (changed_line node)) }
{
    writeln!(out, "changed {node}")
}

/// Prints how the ask with that number ended.
pub fn print_ended<W: Write>(
    alloc: Global,
    number: u64,
    ending: &Ending,
    out: &mut W,
) -> io::Result<()>
    ensures { OnOk result (Appends (W.contents out.old) (W.contents out.new) (ended_line number (ending_view ending.now))) }
{
    write!(out, "ended {number} ")?;
    print_ending_line(alloc, ending, out)
}

/// Prints that the copy with that number was sent, from a node to another, with its octets in hexadecimal.
pub fn print_sent<W: Write>(
    alloc: Global,
    copy: u64,
    from: u64,
    to: u64,
    octets: &[u8],
    out: &mut W,
) -> io::Result<()>
    ensures { OnOk result (Appends (W.contents out.old) (W.contents out.new) (sent_line copy from to octets.now)) }
{
    let octets = hex::encode_upper(alloc, octets)?;
    writeln!(out, "sent {copy} {from}>{to} {octets}")
}

/// Prints that nothing came of an event.
pub fn print_nothing<W: Write>(out: &mut W) -> io::Result<()>
    ensures { OnOk result (Appends (W.contents out.old) (W.contents out.new) nothing_line) }
{
    out.write_all(b"nothing\n")
}

/// Prints that a fault of the world, with that number, ended a script at that line, counted from 1.
pub fn print_fault<W: Write>(line: u64, fault: u8, out: &mut W) -> io::Result<()>
    ensures { OnOk result (Appends (W.contents out.old) (W.contents out.new) (fault_line line fault)) }
{
    writeln!(out, "line {line}: fault {fault}")
}
