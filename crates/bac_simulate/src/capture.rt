//! The copies of a world as a capture file.
ghost use Rattle.std.specs.Prelude.{◌≤◌, map, OnOk};
ghost use Rattle.std.specs.Io.KnownBytes.{Appends};
ghost use Rattle.bac_journal.specs.Views.{copy_view};
ghost use Rattle.bac_simulate.specs.Captures.{capture_of, record_of, records_of};

use bac_capture::{NodeDatagram, print_head, print_record};
use bac_journal::Copy;
use std::alloc::Global;
use std::io;
use std::io::Write;

fn print_copy<W: Write>(alloc: Global, parts: u64, copy: &Copy, out: &mut W) -> io::Result<()>
    requires { 1 ≤ parts }
    ensures { OnOk result (Appends (W.contents out.old) (W.contents out.new) (record_of parts (copy_view copy.now))) }
{
    let datagram = NodeDatagram {
        // whole milliseconds
        moment: copy.moment / parts,
        from: copy.from as u64,
        to: copy.to as u64,
        octets: &copy.octets,
    };
    print_record(alloc, datagram, out)
}

fn print_copies<W: Write>(alloc: Global, parts: u64, copies: &[Copy], out: &mut W) -> io::Result<()>
    requires { 1 ≤ parts }
    ensures { OnOk result (Appends (W.contents out.old) (W.contents out.new) (records_of parts (map copy_view copies.now))) }
{
    for number in 0..copies.len() {
        print_copy(alloc, parts, &copies[number], out)?;
    }
    Ok(())
}

/// Prints copies as a file of pcap; so many parts of their moments are a millisecond.
pub(crate) fn print_capture<W: Write>(
    alloc: Global,
    parts: u64,
    copies: &[Copy],
    out: &mut W,
) -> io::Result<()>
    requires { 1 ≤ parts }
    ensures { OnOk result (Appends (W.contents out.old) (W.contents out.new) (capture_of parts (map copy_view copies.now))) }
{
    print_head(out)?;
    print_copies(alloc, parts, copies, out)
}
