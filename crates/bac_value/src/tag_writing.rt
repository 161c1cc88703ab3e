//! Writing one tag (clause 20.2.1).
ghost use Rattle.std.specs.Prelude.{◌≡◌, ◌<◌, ◌≤◌, ◌+◌, ◌++◌, ◌^◌, OnOk, OnErr, length, take, vec_len, vec_capacity};
ghost use Rattle.bac_value.specs.Appending.{Appends, Lengthens, Keeps, NeedsRoom};
ghost use Rattle.bac_value.specs.Octets.{Begins};
ghost use Rattle.bac_value.specs.Spelling.{class_bit, length_fits, form_bits, form_octets, length_octets, number_octets, number_bits, tag_spelling, SpellsTag};
ghost use Rattle.bac_value.specs.Views.{tag_view};

use crate::memory::NoMemory;
use crate::tag::{Class, Form, Tag};
use byteorder::{BigEndian, ByteOrder};

fn bits_of(form: Form) -> u8
    ensures value { result ≡ form_bits form }
    ensures small { result < 8 }
    ensures fits { length_fits form }
{
    match form {
        Form::Length(len) => { if len < 5 { len as u8 } else { 5 } }
        Form::Boolean(value) => u8::from(value),
        Form::Opening => 6,
        Form::Closing => 7,
    }
}

fn put_length(len: u32, out: &mut Vec<u8>) -> Result<(), NoMemory>
    ensures ok { Appends result out.old out.new (length_octets len) }
    ensures len { Lengthens result out.old out.new (length_octets len) }
    ensures kept { Begins out.old.items out.new.items }
    ensures full { NeedsRoom result out.old (length_octets len) }
    ensures grows { vec_capacity out.old ≤ vec_capacity out.new }
{
    if len < 5 {
        return Ok(());
    }
    if len < 254 {
        out.push(len as u8)?;
    } else if len < 65536 {
        let mut octets = [0; 2];
        BigEndian::write_u16(&mut octets, len as u16);
        out.push(254)?;
        out.extend_from_slice(&octets)?;
    } else {
        let mut octets = [0; 4];
        BigEndian::write_u32(&mut octets, len);
        out.push(255)?;
        out.extend_from_slice(&octets)?;
    }
    Ok(())
}

/// Appends the one spelling of a tag. After an `Err` the old octets are a prefix of the output.
#[tactic(auto, unfolding(crate::specs::Spelling::tag_spelling))]
#[inline(always)]
pub(crate) fn put_tag(tag: &Tag, out: &mut Vec<u8>) -> Result<(), NoMemory>
    ensures spelled { SpellsTag (tag_view tag.now) (tag_spelling (tag_view tag.now)) }
    ensures ok { Appends result out.old out.new (tag_spelling (tag_view tag.now)) }
    ensures len { Lengthens result out.old out.new (tag_spelling (tag_view tag.now)) }
    ensures kept { Begins out.old.items out.new.items }
    ensures full { NeedsRoom result out.old (tag_spelling (tag_view tag.now)) }
    ensures grows { vec_capacity out.old ≤ vec_capacity out.new }
{
    let number = if tag.number < 15 { tag.number } else { 15 };
    let class = match tag.class {
        Class::Application => 0,
        Class::Context => 8,
    };
    out.push(16 * number + class + bits_of(tag.form))?;
    if tag.number >= 15 {
        out.push(tag.number)?;
    }
    if let Form::Length(length) = tag.form {
        put_length(length, out)?;
    }
    Ok(())
}

/// Passes on the result of a writer that appended after `before` octets; if it failed, cuts off what it appended.
#[inline(always)]
pub(crate) fn whole_or_undone(
    before: usize,
    written: Result<(), NoMemory>,
    out: &mut Vec<u8>,
) -> Result<(), NoMemory>
    requires { before ≤ length out.old.items }
    ensures same { result ≡ written }
    ensures ok { OnOk written (out.new ≡ out.old) }
    ensures err { OnErr written (out.new.items ≡ take before out.old.items) }
    ensures room { vec_capacity out.new ≡ vec_capacity out.old }
{
    if written.is_err() {
        out.truncate(before);
    }
    written
}

/// Appends the one spelling of a tag. Returns `NoMemory` and changes nothing if the vector has too little room and cannot grow.
#[inline(always)]
pub fn write_tag(tag: &Tag, out: &mut Vec<u8>) -> Result<(), NoMemory>
    ensures spelled { SpellsTag (tag_view tag.now) (tag_spelling (tag_view tag.now)) }
    ensures ok { Appends result out.old out.new (tag_spelling (tag_view tag.now)) }
    ensures len { Lengthens result out.old out.new (tag_spelling (tag_view tag.now)) }
    ensures err { Keeps result out.old out.new }
    ensures full { NeedsRoom result out.old (tag_spelling (tag_view tag.now)) }
    ensures grows { vec_capacity out.old ≤ vec_capacity out.new }
{
    let before = out.len();
    let written = put_tag(tag, out);
    whole_or_undone(before, written, out)
}
