//! The contents of the records and blocks of a capture file.
ghost use Rattle.std.specs.Prelude.{◌≡◌, ◌≤◌, length, OnOk, OnErr};
ghost use Rattle.bac_value.specs.Steps.{ReadsAll};
ghost use Rattle.bac_capture.specs.Files.{head_len_of};
ghost use Rattle.bac_capture.specs.Blocks.{interface_of, captured_of, simple_of, described_of, typed_block_of, record_frame_of, block_at, after};
ghost use Rattle.bac_capture.specs.BlockViews.{frame_view, block_view, layout_view};

use crate::fault::FileFault;
use crate::file::{Interface, Layout, is_section, section_order};
use crate::form::FileFormat;
use crate::moment::{OPTION_LIMIT, block_moment, record_moment, resolution_in, resolution_of};
use crate::order::Order;
use std::alloc::AllocError;

/// The greatest number of interfaces of a section.
const INTERFACE_LIMIT: usize = 1_024;

/// A frame of a capture file.
#[derive(Clone, Copy, Debug)]
pub struct Frame<'a> {
    /// The number of its link layer in capture files.
    pub link: u16,
    /// When it was captured, in milliseconds; None if the file has no timestamp, or one in a unit other than milli-, micro- or nanoseconds.
    pub moment: Option<u64>,
    /// The captured octets; of a long frame the beginning.
    pub octets: &'a [u8],
}

/// The content of a record or a block.
#[derive(Clone, Copy, Debug)]
pub enum Block<'a> {
    Frame(Frame<'a>),
    /// The beginning of a section, with its byte order.
    Section(Order),
    /// The next interface of the section.
    Interface(Interface),
    /// Anything else; it is ignored.
    Other,
}

impl Layout {
    fn interface(&self, index: usize) -> Result<Interface, FileFault>
        ensures { result ≡ interface_of self.now.interfaces.items index }
    {
        match self.interfaces.get(index) {
            Some(interface) => Ok(*interface),
            None => Err(FileFault::NoInterface),
        }
    }

    /// The frame of an interface in a block with a body of this length: two numbers for the timestamp, how many octets were captured and
    /// sent, and the octets.
    fn captured<'a>(&self, index: usize, size: u32, body: &'a [u8]) -> Result<Frame<'a>, FileFault>
        ensures { ReadsAll frame_view result (captured_of (layout_view self.now) index size body.now) }
    {
        let interface = self.interface(index)?;
        if body.len() < 20 {
            return Err(FileFault::BlockLength);
        }
        let captured = self.order.long(&body[8..]);
        if u64::from(size) < u64::from(captured) + 32 {
            return Err(FileFault::BlockLength);
        }
        let len = (captured as usize).min(body.len() - 16);
        Ok(Frame {
            link: interface.link,
            moment: block_moment(interface.resolution, self.order, body),
            octets: &body[16..16 + len],
        })
    }

    /// The frame of the first interface in a block with a body of this length, which states how many octets were sent.
    fn simple<'a>(&self, sent: u32, size: u32, body: &'a [u8]) -> Result<Frame<'a>, FileFault>
        ensures { ReadsAll frame_view result (simple_of (layout_view self.now) sent size body.now) }
    {
        let interface = self.interface(0)?;
        let captured = if interface.most == 0 {
            sent
        } else {
            sent.min(interface.most)
        };
        if u64::from(size) < u64::from(captured) + 16 {
            return Err(FileFault::BlockLength);
        }
        let len = (captured as usize).min(body.len());
        Ok(Frame {
            link: interface.link,
            moment: None,
            octets: &body[..len],
        })
    }

    /// The frame of a pcap record.
    fn record_frame<'a>(&self, head: &[u8], body: &'a [u8]) -> Result<Frame<'a>, FileFault>
        requires { length head.now ≡ 16 }
        ensures { ReadsAll frame_view result (record_frame_of (layout_view self.now) head.now body.now) }
    {
        let interface = self.interface(0)?;
        Ok(Frame {
            link: interface.link,
            moment: record_moment(interface.resolution, self.order, head),
            octets: body,
        })
    }

    /// The interface with this link layer that a block describes.
    fn described(&self, link: u16, body: &[u8]) -> Result<Interface, FileFault>
        ensures { result ≡ described_of (layout_view self.now) link body.now }
    {
        if body.len() < 8 {
            return Err(FileFault::BlockLength);
        }
        if self.interfaces.len() >= INTERFACE_LIMIT {
            return Err(FileFault::TooManyInterfaces);
        }
        Ok(Interface {
            link,
            most: self.order.long(body),
            resolution: resolution_of(resolution_in(OPTION_LIMIT, self.order, &body[4..])),
        })
    }

    /// The content of a block that does not begin a section, by its type.
    fn typed_block<'a>(&self, head: &[u8], body: &'a [u8]) -> Result<Block<'a>, FileFault>
        requires { length head.now ≡ 12 }
        ensures { ReadsAll block_view result (typed_block_of (layout_view self.now) head.now body.now) }
    {
        let size = self.order.long(&head[4..]);
        match self.order.long(head) {
            1 => Ok(Block::Interface(self.described(self.order.word(&head[8..]), body)?)),
            2 => Ok(Block::Frame(self.captured(
                usize::from(self.order.word(&head[8..])),
                size,
                body,
            )?)),
            3 => Ok(Block::Frame(self.simple(self.order.long(&head[8..]), size, body)?)),
            6 => Ok(Block::Frame(self.captured(self.order.long(&head[8..]) as usize, size, body)?)),
            _ => Ok(Block::Other),
        }
    }

    /// The content of a record or a block, from its head and the beginning of its body, as `read` reads them.
    ///
    /// A record has a frame, and so have blocks of types 2, 3 and 6; a block of type 1 describes an interface. Of a longer frame the
    /// beginning is returned. Anything else in a block, such as most options, is ignored, and so is the length at its end.
    pub fn block<'a>(&self, head: &[u8], body: &'a [u8]) -> Result<Block<'a>, FileFault>
        requires { length head.now ≡ head_len_of self.now.form }
        ensures { ReadsAll block_view result (block_at (layout_view self.now) head.now body.now) }
    {
        match self.form {
            FileFormat::Records => Ok(Block::Frame(self.record_frame(head, body)?)),
            FileFormat::Blocks if is_section(head) => match section_order(&head[8..]) {
                Some(order) => Ok(Block::Section(order)),
                None => Err(FileFault::ByteOrder),
            },
            FileFormat::Blocks => self.typed_block(head, body),
        }
    }

    /// Updates the layout with a block. Returns an `Err` and changes nothing if an allocation fails.
    pub fn take_in(&mut self, block: Block<'_>) -> Result<(), AllocError>
        ensures ok { OnOk result (layout_view self.new ≡ after (layout_view self.old) (block_view block.entry)) }
        ensures err { OnErr result (layout_view self.new ≡ layout_view self.old) }
    {
        match block {
            Block::Frame(_) | Block::Other => {}
            Block::Section(order) => {
                self.order = order;
                self.interfaces.clear();
            }
            Block::Interface(interface) => self.interfaces.push(interface)?,
        }
        Ok(())
    }
}
