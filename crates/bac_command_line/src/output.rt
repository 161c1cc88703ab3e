//! Standard output and standard error of a command line.
ghost use Rattle.std.specs.Prelude.{◌≡◌};
ghost use Rattle.bac_command_line.specs.Outputs.{begun_in, output_contents};

use bac_shown::{Form, Shown};
use std::alloc::Global;
use std::io;
use std::io::Write;

/// An output: text is shown in a form, and octets go as they are.
pub(crate) enum Output<W: Write> {
    Text(Shown<W>),
    Octets(W),
}

impl<W: Write> Output<W> {
    /// In this form; octets where there is none.
    pub(crate) fn new(alloc: Global, form: Option<Form>, out: W) -> Output<W>
        ensures { output_contents W.contents result ≡ begun_in form (W.contents out) }
    {
        match form {
            Some(form) => Output::Text(Shown::new(alloc, form, out)),
            None => Output::Octets(out),
        }
    }

    /// Ends. The writer below, and an Err where the last octets could not be written.
    pub(crate) fn finish(self) -> (W, io::Result<()>) {
        match self {
            Output::Text(shown) => shown.finish(),
            Output::Octets(out) => (out, Ok(())),
        }
    }
}

impl<W: Write> Write for Output<W> {
    ghost contents = { output_contents W.contents };

    fn write(&mut self, octets: &[u8]) -> io::Result<usize> {
        match self {
            Output::Text(shown) => shown.write(octets),
            Output::Octets(out) => out.write(octets),
        }
    }

    fn flush(&mut self) -> io::Result<()> {
        match self {
            Output::Text(shown) => shown.flush(),
            Output::Octets(out) => out.flush(),
        }
    }
}
