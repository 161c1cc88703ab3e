//! Reading runs of octets from an input, in bounded memory.
ghost use Rattle.std.specs.Prelude.{◌≡◌, ◌≤◌, ◌++◌, take, length, IfOk, OnOk, IfSome};
ghost use Rattle.bac_capture.specs.Runs.{RUN_LIMIT, IsPart, IsRun};

use bac_text::is_interrupted;
use std::io;
use std::io::{BufRead, ErrorKind};

/// How many octets of a run are kept: the longest IP packet, 65,575, and what can precede it in a block.
pub(crate) const RUN_LIMIT: usize = 65_700;

/// Appends octets to the kept part of a run, up to the limit.
fn keep(kept: &mut Vec<u8>, octets: &[u8]) -> io::Result<()>
    requires { length kept.old.items ≤ RUN_LIMIT }
    ensures { OnOk result (kept.new.items ≡ take RUN_LIMIT (kept.old.items ++ octets.now)) }
{
    let room = RUN_LIMIT - kept.len();
    let len = octets.len().min(room);
    kept.extend_from_slice(&octets[..len])?;
    Ok(())
}

/// Takes those of `count` octets that the reader has available, and returns their number; None if a signal interrupted the read.
fn take_part<R: BufRead>(
    input: &mut R,
    count: usize,
    kept: &mut Vec<u8>,
) -> io::Result<Option<usize>>
    requires { length kept.old.items ≤ RUN_LIMIT }
    ensures taken { IfOk result (IsPart (R.remaining input.old) (R.remaining input.new) count kept.old.items kept.new.items) }
    ensures short { OnOk result (length kept.new.items ≤ RUN_LIMIT) }
    ensures within { IfOk result (λ r. IfSome r (λ n. n ≤ count)) }
{
    let available = match input.fill_buf() {
        Ok(available) => available,
        Err(error) => {
            return if is_interrupted(&error) {
                Ok(None)
            } else {
                Err(error)
            };
        }
    };
    let len = available.len().min(count);
    keep(kept, &available[..len])?;
    input.consume(len);
    Ok(Some(len))
}

/// Reads a run of this many octets into `kept`. Returns whether the input had that many. Of a long run the beginning is
/// kept.
pub fn read_run<R: BufRead>(input: &mut R, count: usize, kept: &mut Vec<u8>) -> io::Result<bool>
    ensures { IfOk result (IsRun (R.remaining input.old) (R.remaining input.new) count kept.new.items) }
{
    kept.clear();
    let mut left = count;
    for _ in 0..u64::MAX {
        if left == 0 {
            return Ok(true);
        }
        match take_part(input, left, kept)? {
            None => {}
            Some(0) => return Ok(false),
            Some(taken) => left -= taken,
        }
    }
    Err(io::Error::from(ErrorKind::TimedOut))
}
