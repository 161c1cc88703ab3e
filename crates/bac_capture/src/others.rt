//! Counts of BVLLs with functions other than Original-Unicast-NPDU, printed by name.
ghost use Rattle.std.specs.Prelude.{◌≡◌, ◌<◌, OnOk};
ghost use Rattle.std.specs.Io.KnownBytes.{Appends};
ghost use Rattle.bac_text.specs.Bvlc.{function_of};
ghost use Rattle.bac_capture.specs.Counts.{OTHERS, place_of};
ghost use Rattle.bac_capture.specs.Checked.{name_in, other_text, others_text, named_text};

use crate::{BvlcFunction, OtherBvll};
use std::io;
use std::io::Write;

/// How many kinds are counted separately: the functions over IPv4 by number, and all over IPv6 together.
pub(crate) const OTHERS: usize = 14;

/// The index of the count of a kind.
pub(crate) fn place_of(other: OtherBvll) -> usize
    ensures place { result ≡ place_of other }
    ensures within { result < OTHERS }
{
    match other {
        OtherBvll::Ipv4(function) => usize::from(function.number()),
        OtherBvll::Ipv6 => OTHERS - 1,
    }
}

fn name_in(function: Option<BvlcFunction>) -> &'static str
    ensures { result.now ≡ name_in function }
{
    match function {
        Some(function) => function.name(),
        None => "BACnet/IPv6",
    }
}

/// Prints the count of BVLLs of the kind with this index, unless it is 0.
fn print_other<W: Write>(place: u8, count: u64, out: &mut W) -> io::Result<()>
    ensures { OnOk result (Appends (W.contents out.old) (W.contents out.new) (other_text place count)) }
{
    if count == 0 {
        return Ok(());
    }
    let name = name_in(BvlcFunction::of(place));
    writeln!(out, "other {name}={count}")
}

/// Prints the counts of all kinds that occurred.
fn print_others<W: Write>(others: [u64; OTHERS], out: &mut W) -> io::Result<()>
    ensures { OnOk result (Appends (W.contents out.old) (W.contents out.new) (others_text OTHERS others)) }
{
    for place in 0..OTHERS as u8 {
        print_other(place, others[usize::from(place)], out)?;
    }
    Ok(())
}

/// Prints the counts of all kinds that occurred, if requested.
pub(crate) fn print_named<W: Write>(
    named: bool,
    others: [u64; OTHERS],
    out: &mut W,
) -> io::Result<()>
    ensures { OnOk result (Appends (W.contents out.old) (W.contents out.new) (named_text named others)) }
{
    if named {
        print_others(others, out)
    } else {
        Ok(())
    }
}
