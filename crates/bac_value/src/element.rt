//! An element: one tag with its contents.
use crate::tag::Tag;

/// One tag with its contents (clause 20.2.1): an application value, raw octets under a context tag, an opening or a closing tag.
///
/// The contents borrow from the input that they were read from. Opening tags, closing tags and application Booleans have
/// empty contents.
#[derive(Clone, Copy, Debug)]
pub struct Element<O> {
    /// The tag in front of the contents.
    pub tag: Tag,
    /// The octets after the tag, as many as the tag announces.
    pub contents: O,
}
