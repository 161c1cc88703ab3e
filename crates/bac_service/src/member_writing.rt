//! Writers of members that several services have.
ghost use Rattle.std.specs.Prelude.{◌≡◌, ◌+◌, ◌++◌, ◌<◌, ◌≤◌, OnOk, OnErr, length, vec_len, vec_capacity};
ghost use Rattle.bac_value.specs.Data.{opening, closing};
ghost use Rattle.bac_service.specs.Members.{enclosed_spelling, optional_spelling};
ghost use Rattle.bac_service.specs.Writing.{Writes};

use bac_value::{Class, Form, NoMemory, Tag, write_tag, write_unsigned};

/// Appends an opening tag with this number.
pub(crate) fn put_opening(number: u8, out: &mut Vec<u8>) -> Result<(), NoMemory>
    requires { number < 255 }
    ensures { Writes result out.old out.new (opening number) }
{
    let tag = Tag {
        number,
        class: Class::Context,
        form: Form::Opening,
    };
    write_tag(&tag, out)
}

/// Appends a closing tag with this number.
pub(crate) fn put_closing(number: u8, out: &mut Vec<u8>) -> Result<(), NoMemory>
    requires { number < 255 }
    ensures { Writes result out.old out.new (closing number) }
{
    let tag = Tag {
        number,
        class: Class::Context,
        form: Form::Closing,
    };
    write_tag(&tag, out)
}

/// Appends an optional number after a context tag.
pub(crate) fn put_optional(tag: u8, number: Option<u32>, out: &mut Vec<u8>) -> Result<(), NoMemory>
    requires { tag < 255 }
    ensures { Writes result out.old out.new (optional_spelling tag number) }
{
    match number {
        Some(number) => write_unsigned(Class::Context, tag, u64::from(number), out),
        None => Ok(()),
    }
}

/// Appends data between a pair of tags with number 3.
pub(crate) fn put_values(values: &[u8], out: &mut Vec<u8>) -> Result<(), NoMemory>
    ensures { Writes result out.old out.new (enclosed_spelling 3 values.now) }
{
    put_opening(3, out)?;
    out.extend_from_slice(values)?;
    put_closing(3, out)
}
