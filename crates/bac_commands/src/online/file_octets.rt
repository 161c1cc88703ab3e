//! The octets of a file that an ask was answered with, alone.
ghost use Rattle.std.specs.Prelude.{◌≡◌, IfOk};
ghost use Rattle.std.specs.Option.{option_map};
ghost use Rattle.bac_commands.specs.FileOctets.{AreWritten, octets_of};
ghost use Rattle.bac_commands.specs.Reports.{reply_of};

use super::ask_end::print_end;
use super::success::reply_of;
use bac_driver::AskEnd;
use bac_service_text::octets_of_reply;
use std::alloc::Global;
use std::io;
use std::io::Write;

/// The octets of a file with which an ask was answered.
fn octets_of(end: &AskEnd) -> Option<&[u8]>
    ensures { option_map (λ o. o.now) result ≡ octets_of (reply_of end.now) }
{
    match reply_of(end) {
        Some(reply) => octets_of_reply(reply.as_reply()),
        None => None,
    }
}

/// Writes the octets of a file with which an ask was answered; where it was not, `err` says how it ended. Answers whether it was.
pub(crate) fn print_file_octets<O: Write, E: Write>(
    alloc: Global,
    end: &AskEnd,
    out: &mut O,
    err: &mut E,
) -> io::Result<bool>
    ensures { IfOk result (λ succeeded. AreWritten (octets_of (reply_of end.now)) succeeded (O.contents out.old) (O.contents out.new)) }
{
    let Some(octets) = octets_of(end) else {
        // if that fails too, only the status is left
        let _ = print_end(alloc, end, err);
        return Ok(false);
    };
    out.write_all(octets)?;
    out.flush()?;
    Ok(true)
}
