//! How the end of a ticket is printed.
ghost use Rattle.std.specs.Prelude.{OnOk};
ghost use Rattle.std.specs.Io.KnownBytes.{Appends};
ghost use Rattle.bac_requester.specs.TransactionViews.{ending_view};
ghost use Rattle.bac_commands.specs.Facts.{ending_line, ending_text};

use bac_requester::Ending;
use bac_service_text::print_reply;
use std::alloc::Global;
use std::io;
use std::io::Write;

/// Prints how a ticket ended, without the end of a line. Octets are in hexadecimal, in capitals.
pub fn print_ending<W: Write>(alloc: Global, ending: &Ending, out: &mut W) -> io::Result<()>
    ensures { OnOk result (Appends (W.contents out.old) (W.contents out.new) (ending_text (ending_view ending.now))) }
{
    match ending {
        Ending::Answered(reply) => print_reply(alloc, reply.as_reply(), out),
        Ending::Rejected(reason) => write!(out, "rejected {reason}"),
        Ending::Aborted(reason) => write!(out, "aborted {reason}"),
        Ending::TimedOut => out.write_all(b"timed-out"),
        Ending::Expired => out.write_all(b"expired"),
    }
}

/// Prints how a ticket ended as [`print_ending`] does, with the end of a line.
pub fn print_ending_line<W: Write>(alloc: Global, ending: &Ending, out: &mut W) -> io::Result<()>
    ensures { OnOk result (Appends (W.contents out.old) (W.contents out.new) (ending_line (ending_view ending.now))) }
{
    print_ending(alloc, ending, out)?;
    out.write_all(b"\n")
}
