//! Values, data, pieces and segments: a refused call changes nothing, and succeeds when it comes again.
ghost use Rattle.std.specs.Prelude.{◌<◌};

use super::holds;
use bac_apdu::Window;
use bac_segment::{Incoming, SegmentFault, Step};
use bac_value::{Data, DataBuf, NoMemory, Octets, Parts, Value, copy_out, read_data, write_value};
use std::alloc::Global;
use std::test::Fail;

/// One octet, in a vector that has to grow for a third: what is written octet by octet is refused behind its first one.
fn one_octet(alloc: Global) -> Result<Vec<u8>, NoMemory> {
    let mut out = match Vec::with_capacity(alloc, 2) {
        Ok(out) => out,
        Err(_) => Vec::with_capacity(alloc, 2)?,
    };
    out.push(0xAA)?;
    Ok(out)
}

/// Whether a refused write changes nothing.
fn is_written_once(out: &mut Vec<u8>) -> Result<bool, NoMemory> {
    let value = Value::Unsigned(256);
    let is_unchanged = match write_value(&value, out) {
        Ok(()) => return Ok(true),
        Err(NoMemory) => matches!(out.as_slice(), [0xAA]),
    };
    write_value(&value, out)?;
    Ok(is_unchanged)
}

fn is_written_after_all(alloc: Global) -> Result<bool, NoMemory> {
    let mut out = one_octet(alloc)?;
    Ok(is_written_once(&mut out)? && matches!(out.as_slice(), [0xAA, 0x22, 1, 0]))
}

#[test]
fn writes_what_was_refused(rt: HostRuntime) -> Result<(), Fail> {
    holds(is_written_after_all(rt.alloc())?, "256")
}

fn copied(alloc: Global, data: Data<'_>) -> Result<DataBuf, NoMemory> {
    match data.to_owned(alloc) {
        Ok(copy) => Ok(copy),
        Err(NoMemory) => data.to_owned(alloc),
    }
}

fn is_copied(alloc: Global, octets: &[u8]) -> Result<bool, NoMemory> {
    match read_data(octets) {
        Ok((data, _)) => Ok(copied(alloc, data)?.octets.as_slice() == octets),
        Err(_) => Ok(false),
    }
}

#[test]
fn copies_data_that_was_refused(rt: HostRuntime) -> Result<(), Fail> {
    holds(is_copied(rt.alloc(), b"\x62\xAB\xCD")?, "a copy")
}

/// The pieces of some octets, each `size` long but the last, with an empty piece before each.
fn between_empty_ones(alloc: Global, octets: &[u8], size: usize) -> Result<Vec<Vec<u8>>, NoMemory>
    requires { 0 < size }
{
    let mut pieces = Vec::new(alloc);
    for piece in octets.chunks(size) {
        pieces.push(Vec::new(alloc))?;
        pieces.push(piece.to_vec(alloc)?)?;
    }
    Ok(pieces)
}

/// 0, 1, 2, 3, in pieces of one octet with empty ones between; where one allocation was refused they are made again.
fn pieces(alloc: Global) -> Result<Vec<Vec<u8>>, NoMemory> {
    match between_empty_ones(alloc, b"\x00\x01\x02\x03", 1) {
        Ok(pieces) => Ok(pieces),
        Err(NoMemory) => between_empty_ones(alloc, b"\x00\x01\x02\x03", 1),
    }
}

/// Whether a refused copy of all of them changes nothing.
fn is_copied_out_once(parts: &Parts<'_>, out: &mut Vec<u8>) -> Result<bool, NoMemory> {
    let is_unchanged = match copy_out(parts, 0, parts.len(), out) {
        Ok(()) => return Ok(true),
        Err(NoMemory) => matches!(out.as_slice(), [0xAA]),
    };
    copy_out(parts, 0, parts.len(), out)?;
    Ok(is_unchanged)
}

fn is_copied_out_after_all(alloc: Global) -> Result<bool, NoMemory> {
    let pieces = pieces(alloc)?;
    let Some(parts) = Parts::try_new(&pieces) else {
        return Ok(false);
    };
    let mut out = one_octet(alloc)?;
    Ok(is_copied_out_once(&parts, &mut out)? && matches!(out.as_slice(), [0xAA, 0, 1, 2, 3]))
}

#[test]
fn copies_out_what_was_refused(rt: HostRuntime) -> Result<(), Fail> {
    holds(is_copied_out_after_all(rt.alloc())?, "pieces")
}

const THIRTY_TWO: Window = Window { size: 32 };

/// A segment that fills a vector.
const LONG: [u8; 1_024] = [7; 1_024];

/// Whether a segment is taken, when it comes or, where memory was refused and nothing has changed, when it comes again.
fn is_taken_at_last(inc: &mut Incoming, n: u8) -> bool {
    let octets = if n % 2 == 0 { b"abc".as_slice() } else { &LONG };
    let before = inc.taken();
    let step = inc.on_segment(n, true, octets);
    let is_unchanged = inc.taken() == before;
    let taken = Ok(Step::Taken { ack: n == 0 });
    step == taken
        || (step == Err(SegmentFault::NoMemory)
            && is_unchanged
            && inc.on_segment(n, true, octets) == taken)
}

/// Segments by turns of three octets and of 1,024. Run with each allocation refused in turn, too: a refused segment changes nothing, and is
/// taken when it comes again.
#[test]
fn takes_a_segment_that_was_refused(rt: HostRuntime) -> Result<(), Fail> {
    let mut inc = Incoming::new(rt.alloc(), THIRTY_TWO, THIRTY_TWO);
    for n in 0..12u8 {
        if !is_taken_at_last(&mut inc, n) {
            return Err(Fail::from(n));
        }
    }
    holds(inc.parts().len() == 6_162, "6,162 octets")
}
