//! What a line of a capture is.
ghost use Rattle.std.specs.Prelude.{IfOk};
ghost use Rattle.std.specs.Option.{option_map};
ghost use Rattle.bac_text.specs.Capture.{capture_at};
ghost use Rattle.bac_text.specs.Notes.{read_of};
ghost use Rattle.bac_text.specs.Lines.{short_capture_at, IsJudged};

use crate::capture::read_into;
use crate::fault::{LineFault, LineVerdict};
use crate::fault_words::function_in;
use crate::layers::check_datagram;
use crate::lines::LINE_LIMIT;
use crate::notes::read_of;
use std::alloc::AllocError;

/// What a line is whose octets are not too many, where the greatest moment so far is `latest`; and the greatest moment from here on.
/// Its datagram stands in `datagram`, whose memory serves each line.
fn verdict_on(
    notes: bool,
    line: &[u8],
    latest: u64,
    datagram: &mut Vec<u8>,
) -> Result<(LineVerdict, u64), AllocError>
    ensures { IfOk result (λ r. IsJudged (option_map capture_at (read_of notes line.now)) latest r.0 r.1) }
{
    let Some(read) = read_of(notes, line) else {
        return Ok((LineVerdict::Note, latest));
    };
    let Some(moment) = read_into(read, datagram)? else {
        return Ok((LineVerdict::Bad(LineFault::NoCaptureLine), latest));
    };
    if moment < latest {
        return Ok((LineVerdict::Bad(LineFault::MomentGoesBack), latest));
    }
    match check_datagram(datagram) {
        Ok(()) => Ok((LineVerdict::Good, moment)),
        Err(fault) => {
            let function = function_in(datagram);
            let fault = LineFault::Datagram { fault, function };
            Ok((LineVerdict::Bad(fault), moment))
        }
    }
}

/// What a line of a capture is, where the greatest moment of the capture lines before it is `latest`; and the greatest moment from here on. Where `notes` is set, blank lines
/// and those that begin with `#` are notes. A line of more than `LINE_LIMIT` octets is no capture line. The line's datagram is written to `datagram`, whose memory serves
/// each line. An Err if an allocation fails.
pub fn judge_line(
    notes: bool,
    line: &[u8],
    latest: u64,
    datagram: &mut Vec<u8>,
) -> Result<(LineVerdict, u64), AllocError>
    ensures { IfOk result (λ r. IsJudged (short_capture_at notes line.now) latest r.0 r.1) }
{
    if line.len() > LINE_LIMIT {
        return Ok((LineVerdict::Bad(LineFault::NoCaptureLine), latest));
    }
    verdict_on(notes, line, latest, datagram)
}
