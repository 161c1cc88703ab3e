//! Reading capture files, record by record and block by block.
ghost use Rattle.std.specs.Prelude.{◌≡◌, Ok, true, length, IfOk};
ghost use Rattle.bac_capture.specs.Files.{head_len_of, section_order_of, is_section, block_order_of, block_len_of, body_len_of, IsBody, IsRecord};

use crate::fault::FileFault;
use crate::form::FileFormat;
use crate::moment::Resolution;
use crate::order::Order;
use crate::run::read_run;
use std::io;
use std::io::BufRead;

/// An interface, as a section of pcapng describes it.
#[derive(Clone, Copy, Debug)]
pub struct Interface {
    /// The number of its link layer.
    pub link: u16,
    /// The greatest number of octets of a frame that are captured; 0 for all.
    pub most: u32,
    /// The unit of its timestamps; None if they are not read.
    pub resolution: Option<Resolution>,
}

/// How to read the rest of a capture file, as its header and its sections define.
#[derive(Debug, Drop)]
pub struct Layout {
    pub(crate) form: FileFormat,
    pub(crate) order: Order,
    pub(crate) interfaces: Vec<Interface>,
}

/// The type of a block that begins a section; it is the same in both byte orders.
const SECTION: [u8; 4] = [0x0A, 0x0D, 0x0D, 0x0A];

/// The byte order of a section, from the third number of its block.
pub(crate) fn section_order(octets: &[u8]) -> Option<Order>
    ensures { result ≡ section_order_of octets.now }
{
    match octets {
        [0x1A, 0x2B, 0x3C, 0x4D] => Some(Order::Big),
        [0x4D, 0x3C, 0x2B, 0x1A] => Some(Order::Little),
        _ => None,
    }
}

/// Whether a block with this head begins a section.
pub(crate) fn is_section(head: &[u8]) -> bool
    ensures { result ≡ is_section head.now }
{
    head.starts_with(&SECTION)
}

impl Layout {
    /// The length in octets of the head of a record or a block.
    fn head_len(&self) -> usize
        ensures { result ≡ head_len_of self.now.form }
    {
        match self.form {
            FileFormat::Records => 16,
            FileFormat::Blocks => 12,
        }
    }

    /// The byte order of a block: that of its section.
    fn block_order(&self, head: &[u8]) -> Option<Order>
        requires { length head.now ≡ 12 }
        ensures { result ≡ block_order_of self.now.order head.now }
    {
        if is_section(head) {
            section_order(&head[8..])
        } else {
            Some(self.order)
        }
    }

    /// How many octets follow the head of a block.
    fn block_len(&self, head: &[u8]) -> Result<usize, FileFault>
        requires { length head.now ≡ 12 }
        ensures { result ≡ block_len_of self.now.order head.now }
    {
        let Some(order) = self.block_order(head) else {
            return Err(FileFault::ByteOrder);
        };
        let length = order.long(&head[4..]);
        if length < 12 || length % 4 != 0 {
            return Err(FileFault::BlockLength);
        }
        Ok((length - 12) as usize)
    }

    /// How many octets follow the head of a record or a block.
    fn body_len(&self, head: &[u8]) -> Result<usize, FileFault>
        requires { length head.now ≡ head_len_of self.now.form }
        ensures { result ≡ body_len_of self.now.form self.now.order head.now }
    {
        match self.form {
            FileFormat::Records => Ok(self.order.long(&head[8..]) as usize),
            FileFormat::Blocks => self.block_len(head),
        }
    }

    /// Reads what follows a head. Returns `Cut` if the input ends within it.
    fn read_body<R: BufRead>(
        &self,
        input: &mut R,
        head: &[u8],
        body: &mut Vec<u8>,
    ) -> io::Result<Result<bool, FileFault>>
        requires { length head.now ≡ head_len_of self.now.form }
        ensures { IfOk result (IsBody head.now (body_len_of self.now.form self.now.order head.now) (R.remaining input.old) (R.remaining input.new) body.new.items) }
    {
        let len = match self.body_len(head) {
            Ok(len) => len,
            Err(fault) => return Ok(Err(fault)),
        };
        if read_run(input, len, body)? {
            Ok(Ok(true))
        } else {
            Ok(Err(FileFault::Cut))
        }
    }

    /// Reads the next record or block, into the two vectors: its head, and the beginning of its body, at most 65,700 octets.
    /// Returns false at the end of the file.
    pub fn read<R: BufRead>(
        &self,
        input: &mut R,
        head: &mut Vec<u8>,
        body: &mut Vec<u8>,
    ) -> io::Result<Result<bool, FileFault>>
        ensures record { IfOk result (IsRecord self.now.form self.now.order (R.remaining input.old) (R.remaining input.new) head.new.items body.new.items) }
        ensures len { IfOk result (λ r. r ≡ Ok true → length head.new.items ≡ head_len_of self.now.form) }
    {
        let len = self.head_len();
        let _ = read_run(input, len, head)?;
        if head.is_empty() {
            return Ok(Ok(false));
        }
        if head.len() != len {
            return Ok(Err(FileFault::Cut));
        }
        self.read_body(input, head, body)
    }
}
