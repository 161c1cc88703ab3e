//! The headers of capture files.
ghost use Rattle.std.specs.Prelude.{◌≡◌, length, IfOk};
ghost use Rattle.bac_capture.specs.declared.form.FileFormat.TheVariants.{Records};
ghost use Rattle.bac_capture.specs.Begins.{header_layout, header_resolution, IsBegun};
ghost use Rattle.bac_capture.specs.BlockViews.{layout_view};

use crate::fault::FileFault;
use crate::file::{Interface, Layout};
use crate::form::{FileFormat, FileSignature};
use crate::moment::Resolution;
use crate::order::Order;
use crate::run::read_run;
use std::alloc::{AllocError, Global};
use std::io;
use std::io::BufRead;

/// The first number of a pcap file whose timestamps have nanoseconds.
const NANOSECONDS: u32 = 0xA1B2_3C4D;

/// The length of the pcap header in octets.
const HEADER: usize = 24;

/// The unit of the timestamps of a pcap file, by its first number.
fn header_resolution(order: Order, header: &[u8]) -> Resolution
    requires { length header.now ≡ 24 }
    ensures { result ≡ header_resolution order header.now }
{
    if order.long(header) == NANOSECONDS {
        Resolution::Nanoseconds
    } else {
        Resolution::Microseconds
    }
}

/// The layout that the pcap header defines: all frames have its link layer.
fn header_layout(alloc: Global, order: Order, header: &[u8]) -> Result<Layout, AllocError>
    requires { length header.now ≡ 24 }
    ensures { IfOk result (λ layout. layout_view layout ≡ header_layout order header.now) }
{
    let link = (order.long(&header[20..]) % 0x1_0000) as u16;
    let resolution = Some(header_resolution(order, header));
    let mut interfaces = Vec::new(alloc);
    interfaces.push(Interface {
        link,
        most: 0,
        resolution,
    })?;
    Ok(Layout {
        form: FileFormat::Records,
        order,
        interfaces,
    })
}

/// Reads the header of pcap.
fn read_header<R: BufRead>(
    alloc: Global,
    order: Order,
    input: &mut R,
) -> io::Result<Result<Layout, FileFault>>
    ensures { IfOk result (IsBegun Records order (R.remaining input.old) (R.remaining input.new)) }
{
    let mut header = Vec::new(alloc);
    let _ = read_run(input, HEADER, &mut header)?;
    if header.len() != HEADER {
        return Ok(Err(FileFault::Cut));
    }
    Ok(Ok(header_layout(alloc, order, &header)?))
}

impl Layout {
    /// Reads the header of a capture file with this signature, and returns how to read the rest. Returns `Cut` if the file ends within
    /// the header.
    pub fn begin<R: BufRead>(
        alloc: Global,
        signature: FileSignature,
        input: &mut R,
    ) -> io::Result<Result<Layout, FileFault>>
        ensures { IfOk result (IsBegun signature.format signature.order (R.remaining input.old) (R.remaining input.new)) }
    {
        match signature.format {
            FileFormat::Records => read_header(alloc, signature.order, input),
            FileFormat::Blocks => Ok(Ok(Layout {
                form: signature.format,
                order: signature.order,
                interfaces: Vec::new(alloc),
            })),
        }
    }
}
