//! The texts that `bac answer` takes and prints.
ghost use Rattle.std.specs.Prelude.{◌≡◌, OnOk};
ghost use Rattle.std.specs.Io.KnownBytes.{Appends};
ghost use Rattle.bac_commands.specs.AnswerTexts.{ArePrintedOf, IsAnsweredBy, line_of, lines_of, sent_text};

use crate::answering::sends;
use bac_store::Store;
use bac_text::{Status, complain, no_memory, output_failed};
use bac_transaction::Datagram;
use hex::FromHexError;
use std::alloc::Global;
use std::io;
use std::io::{ErrorKind, Write};

/// Prints the octets of a datagram in hexadecimal, in capitals, as one line.
fn print_line<W: Write>(alloc: Global, datagram: &Datagram, out: &mut W) -> io::Result<()>
    ensures { OnOk result (Appends (W.contents out.old) (W.contents out.new) (line_of datagram.now)) }
{
    let text = hex::encode_upper(alloc, datagram.octets())?;
    out.writeln(text.as_str())
}

fn print_lines<W: Write>(alloc: Global, sent: &[Datagram], out: &mut W) -> io::Result<()>
    ensures { OnOk result (Appends (W.contents out.old) (W.contents out.new) (lines_of sent.now)) }
{
    for datagram in sent {
        print_line(alloc, datagram, out)?;
    }
    Ok(())
}

/// Prints datagrams, one a line, or `none` where there are none.
fn print_sent<W: Write>(alloc: Global, sent: &[Datagram], out: &mut W) -> io::Result<()>
    ensures { OnOk result (Appends (W.contents out.old) (W.contents out.new) (sent_text sent.now)) }
{
    if sent.is_empty() {
        out.writeln("none")
    } else {
        print_lines(alloc, sent, out)
    }
}

/// Prints what answers a datagram.
fn print_answers<W: Write>(
    alloc: Global,
    store: Store,
    datagram: &[u8],
    out: &mut W,
) -> io::Result<()>
    ensures { OnOk result (ArePrintedOf store datagram.now (W.contents out.old) (W.contents out.new)) }
{
    let Ok(sent) = sends(alloc, store, datagram) else {
        return Err(io::Error::from(ErrorKind::OutOfMemory));
    };
    print_sent(alloc, &sent, out)?;
    out.flush()
}

/// Prints the datagrams by which a node with a store answers a datagram given in hexadecimal, in capitals, one a line, or `none`.
///
/// Text that is not hexadecimal: `bad hex` on `err`, and `CommandLine`. Out of memory: `no memory` on `err`. `Output` where `out` cannot be written.
pub fn answer_over<O: Write, E: Write>(
    alloc: Global,
    store: Store,
    text: &str,
    out: &mut O,
    err: &mut E,
) -> Status
    ensures { IsAnsweredBy store text.now (O.contents out.old) (O.contents out.new) result }
{
    let datagram = match hex::decode(alloc, text) {
        Ok(datagram) => datagram,
        Err(FromHexError::OutOfMemory) => return no_memory(err),
        Err(_) => return complain(err, "bad hex", Status::CommandLine),
    };
    match print_answers(alloc, store, &datagram, out) {
        Ok(()) => Status::Done,
        Err(error) => {
            // what was printed before it goes out as far as it can
            let _ = out.flush();
            output_failed(err, &error)
        }
    }
}
