//! Writing application values, and contents under any tag (clause 20.2).
ghost use Rattle.std.specs.Prelude.{◌≡◌, ◌<◌, ◌≤◌, ◌+◌, ◌*◌, ◌++◌, ◌^◌, ◌∷◌, ℕ, List, [], length, IsTrue, OnOk, OnErr, vec_len, vec_capacity};
ghost use Rattle.bac_value.specs.Appending.{Appends, Lengthens, Keeps, NeedsRoom};
ghost use Rattle.byteorder.specs.Endian.{big_bytes};
ghost use Rattle.bac_value.specs.Octets.{Begins};
ghost use Rattle.bac_value.specs.Limits.{length_tag_fits};
ghost use Rattle.bac_value.specs.Spelling.{tag_spelling};
ghost use Rattle.bac_value.specs.Number.{unsigned_octets, signed_octets};
ghost use Rattle.bac_value.specs.Value.{Datum, boolean, mark_for, IsValue, SpellsValue};
ghost use Rattle.bac_value.specs.Writing.{primitive, object_octets, value_spelling, AppendsValue};
ghost use Rattle.bac_value.specs.Views.{value_view, object_identifier_view};

use crate::kinds;
use crate::memory::NoMemory;
use crate::number_width::{complement_of, distance_of, octets_of, signed_octets_of};
use crate::tag::{Class, Form, Tag};
use crate::tag_writing::{put_tag, whole_or_undone};
use crate::value::{ObjectIdentifier, Value};
use byteorder::{BigEndian, ByteOrder};

/// Appends a tag with the length of the contents, and the contents. As after all `put_` calls, after an `Err` the old octets are a
/// prefix of the output.
#[inline(always)]
fn put_primitive(
    class: Class,
    number: u8,
    contents: &[u8],
    out: &mut Vec<u8>,
) -> Result<(), NoMemory>
    requires tag { IsTrue (length_tag_fits number class) }
    requires fits { length contents.now < 2 ^ 32 }
    ensures ok { Appends result out.old out.new (primitive class number contents.now) }
    ensures len { Lengthens result out.old out.new (primitive class number contents.now) }
    ensures kept { Begins out.old.items out.new.items }
    ensures full { NeedsRoom result out.old (primitive class number contents.now) }
    ensures grows { vec_capacity out.old ≤ vec_capacity out.new }
{
    let form = Form::Length(contents.len() as u32);
    let tag = Tag {
        number,
        class,
        form,
    };
    put_tag(&tag, out)?;
    out.extend_from_slice(contents)?;
    Ok(())
}

/// Appends a tag, and a number in `count` octets.
#[inline(always)]
fn put_number(
    class: Class,
    tag: u8,
    count: usize,
    number: u64,
    out: &mut Vec<u8>,
) -> Result<(), NoMemory>
    requires tag { IsTrue (length_tag_fits tag class) }
    requires some { 0 < count }
    requires most { count ≤ 8 }
    requires fits { number < 256 ^ count }
    ensures ok { Appends result out.old out.new (primitive class tag (big_bytes count number)) }
    ensures len { Lengthens result out.old out.new (primitive class tag (big_bytes count number)) }
    ensures kept { Begins out.old.items out.new.items }
    ensures full { NeedsRoom result out.old (primitive class tag (big_bytes count number)) }
    ensures grows { vec_capacity out.old ≤ vec_capacity out.new }
{
    let mut buffer = [0u8; 8];
    BigEndian::write_uint(&mut buffer, number, count);
    put_primitive(class, tag, &buffer[..count], out)
}

/// Appends a tag, and an Unsigned or Enumerated number in the fewest octets (clause 20.2.4).
///
/// Tag numbers are 0 to 12 except 1 for the application class, and 0 to 254 for the context class. The caller guarantees that
/// an Enumerated has at most 32 bits. After an `Err` the old octets are a prefix of the output.
#[tactic(auto, unfolding(crate::specs::Number::unsigned_octets))]
#[inline(always)]
fn put_unsigned(class: Class, tag: u8, number: u64, out: &mut Vec<u8>) -> Result<(), NoMemory>
    requires { IsTrue (length_tag_fits tag class) }
    ensures ok { Appends result out.old out.new (primitive class tag (unsigned_octets number)) }
    ensures len { Lengthens result out.old out.new (primitive class tag (unsigned_octets number)) }
    ensures kept { Begins out.old.items out.new.items }
    ensures full { NeedsRoom result out.old (primitive class tag (unsigned_octets number)) }
    ensures grows { vec_capacity out.old ≤ vec_capacity out.new }
{
    put_number(class, tag, octets_of(number), number, out)
}

/// Appends a tag, and a number in the fewest octets of two's complement (clause 20.2.5).
///
/// Tag numbers are 0 to 12 except 1 for the application class, and 0 to 254 for the context class. After an `Err` the old octets
/// are a prefix of the output.
#[tactic(auto, unfolding(crate::specs::Number::signed_octets))]
#[inline(always)]
fn put_signed(class: Class, tag: u8, number: i64, out: &mut Vec<u8>) -> Result<(), NoMemory>
    requires { IsTrue (length_tag_fits tag class) }
    ensures ok { Appends result out.old out.new (primitive class tag (signed_octets number)) }
    ensures len { Lengthens result out.old out.new (primitive class tag (signed_octets number)) }
    ensures kept { Begins out.old.items out.new.items }
    ensures full { NeedsRoom result out.old (primitive class tag (signed_octets number)) }
    ensures grows { vec_capacity out.old ≤ vec_capacity out.new }
{
    let count = signed_octets_of(distance_of(number));
    put_number(class, tag, count, complement_of(number), out)
}

/// Appends a tag, and the 4 octets of an object's type and instance (clause 20.2.14).
///
/// Tag numbers are 0 to 12 except 1 for the application class, and 0 to 254 for the context class. After an `Err` the old octets
/// are a prefix of the output.
#[inline(always)]
fn put_object_identifier(
    class: Class,
    tag: u8,
    id: ObjectIdentifier,
    out: &mut Vec<u8>,
) -> Result<(), NoMemory>
    requires { IsTrue (length_tag_fits tag class) }
    ensures ok { Appends result out.old out.new (primitive class tag (object_octets (object_identifier_view id))) }
    ensures len { Lengthens result out.old out.new (primitive class tag (object_octets (object_identifier_view id))) }
    ensures kept { Begins out.old.items out.new.items }
    ensures full { NeedsRoom result out.old (primitive class tag (object_octets (object_identifier_view id))) }
    ensures grows { vec_capacity out.old ≤ vec_capacity out.new }
{
    let number = u32::from(id.kind) * 0x40_0000 + id.instance;
    put_number(class, tag, 4, u64::from(number), out)
}

/// Appends an application Boolean, whose value is part of its tag (clause 20.2.3).
///
/// After an `Err` the old octets are a prefix of the output.
fn put_boolean(value: bool, out: &mut Vec<u8>) -> Result<(), NoMemory>
    ensures ok { Appends result out.old out.new (tag_spelling (mark_for (boolean value) 0)) }
    ensures len { Lengthens result out.old out.new (tag_spelling (mark_for (boolean value) 0)) }
    ensures kept { Begins out.old.items out.new.items }
    ensures full { NeedsRoom result out.old (tag_spelling (mark_for (boolean value) 0)) }
    ensures grows { vec_capacity out.old ≤ vec_capacity out.new }
{
    let tag = Tag {
        number: kinds::BOOLEAN,
        class: Class::Application,
        form: Form::Boolean(value),
    };
    put_tag(&tag, out)
}

/// Appends an application tag, one octet and more octets: a character set and its text, or a number of unused bits and the bits.
fn put_with_octet(kind: u8, octet: u8, octets: &[u8], out: &mut Vec<u8>) -> Result<(), NoMemory>
    requires tag { IsTrue (length_tag_fits kind Class.Application) }
    requires fits { length octets.now + 1 < 2 ^ 32 }
    ensures ok { Appends result out.old out.new (primitive Class.Application kind (octet ∷ octets.now)) }
    ensures len { Lengthens result out.old out.new (primitive Class.Application kind (octet ∷ octets.now)) }
    ensures kept { Begins out.old.items out.new.items }
    ensures full { NeedsRoom result out.old (primitive Class.Application kind (octet ∷ octets.now)) }
    ensures grows { vec_capacity out.old ≤ vec_capacity out.new }
{
    let tag = Tag {
        number: kind,
        class: Class::Application,
        form: Form::Length(octets.len() as u32 + 1),
    };
    put_tag(&tag, out)?;
    out.push(octet)?;
    out.extend_from_slice(octets)?;
    Ok(())
}

/// Appends the one spelling of a value. After an `Err` the old octets are a prefix of the output.
fn put_value(value: &Value, out: &mut Vec<u8>) -> Result<(), NoMemory>
    ensures ok { Appends result out.old out.new (value_spelling (value_view value.now)) }
    ensures len { Lengthens result out.old out.new (value_spelling (value_view value.now)) }
    ensures kept { Begins out.old.items out.new.items }
    ensures full { NeedsRoom result out.old (value_spelling (value_view value.now)) }
    ensures grows { vec_capacity out.old ≤ vec_capacity out.new }
    ensures value { IsValue (value_view value.now) }
{
    let class = Class::Application;
    match value {
        Value::Null => put_primitive(class, kinds::NULL, &[], out),
        Value::Boolean(value) => put_boolean(*value, out),
        Value::Unsigned(number) => put_unsigned(class, kinds::UNSIGNED, *number, out),
        Value::Signed(number) => put_signed(class, kinds::SIGNED, *number, out),
        Value::Real(octets) => put_primitive(class, kinds::REAL, octets, out),
        Value::Double(octets) => put_primitive(class, kinds::DOUBLE, octets, out),
        Value::OctetString(string) => {
            put_primitive(class, kinds::OCTET_STRING, &string.octets, out)
        }
        Value::CharacterString(string) => {
            put_with_octet(kinds::CHARACTER_STRING, string.set, &string.text, out)
        }
        Value::BitString(string) => {
            put_with_octet(kinds::BIT_STRING, string.unused, &string.octets, out)
        }
        Value::Enumerated(number) => {
            put_unsigned(class, kinds::ENUMERATED, u64::from(*number), out)
        }
        Value::Date(octets) => put_primitive(class, kinds::DATE, octets, out),
        Value::Time(octets) => put_primitive(class, kinds::TIME, octets, out),
        Value::ObjectIdentifier(id) => {
            put_object_identifier(class, kinds::OBJECT_IDENTIFIER, *id, out)
        }
    }
}

/// Appends the one spelling of a value. Returns `NoMemory` and changes nothing if the vector has too little room and cannot grow.
pub fn write_value(value: &Value, out: &mut Vec<u8>) -> Result<(), NoMemory>
    ensures ok { OnOk result (AppendsValue (value_view value.now) out.old.items out.new.items) }
    ensures err { Keeps result out.old out.new }
    ensures full { NeedsRoom result out.old (value_spelling (value_view value.now)) }
{
    let before = out.len();
    let written = put_value(value, out);
    whole_or_undone(before, written, out)
}

/// Appends a tag with the length of the contents, and the contents. Returns `NoMemory` and changes nothing if the vector cannot grow.
///
/// Tag numbers are 0 to 12 except 1 for the application class, and 0 to 254 for the context class. The caller guarantees that
/// the contents are of the tag's kind.
#[inline(always)]
pub fn write_primitive(
    class: Class,
    number: u8,
    contents: &[u8],
    out: &mut Vec<u8>,
) -> Result<(), NoMemory>
    requires tag { IsTrue (length_tag_fits number class) }
    requires fits { length contents.now < 2 ^ 32 }
    ensures ok { Appends result out.old out.new (primitive class number contents.now) }
    ensures len { Lengthens result out.old out.new (primitive class number contents.now) }
    ensures kept { Begins out.old.items out.new.items }
    ensures err { Keeps result out.old out.new }
    ensures full { NeedsRoom result out.old (primitive class number contents.now) }
    ensures grows { vec_capacity out.old ≤ vec_capacity out.new }
{
    let before = out.len();
    let written = put_primitive(class, number, contents, out);
    whole_or_undone(before, written, out)
}

/// Appends a tag, and an Unsigned or Enumerated number in the fewest octets (clause 20.2.4). Returns `NoMemory` and changes nothing
/// if the vector cannot grow.
///
/// Tag numbers are 0 to 12 except 1 for the application class, and 0 to 254 for the context class. The caller guarantees that
/// an Enumerated has at most 32 bits.
#[inline(always)]
pub fn write_unsigned(class: Class, tag: u8, number: u64, out: &mut Vec<u8>) -> Result<(), NoMemory>
    requires { IsTrue (length_tag_fits tag class) }
    ensures ok { Appends result out.old out.new (primitive class tag (unsigned_octets number)) }
    ensures len { Lengthens result out.old out.new (primitive class tag (unsigned_octets number)) }
    ensures kept { Begins out.old.items out.new.items }
    ensures err { Keeps result out.old out.new }
    ensures full { NeedsRoom result out.old (primitive class tag (unsigned_octets number)) }
    ensures grows { vec_capacity out.old ≤ vec_capacity out.new }
{
    let before = out.len();
    let written = put_unsigned(class, tag, number, out);
    whole_or_undone(before, written, out)
}

/// Appends a tag, and a number in the fewest octets of two's complement (clause 20.2.5). Returns `NoMemory` and changes nothing if
/// the vector cannot grow.
///
/// Tag numbers are 0 to 12 except 1 for the application class, and 0 to 254 for the context class.
#[inline(always)]
pub fn write_signed(class: Class, tag: u8, number: i64, out: &mut Vec<u8>) -> Result<(), NoMemory>
    requires { IsTrue (length_tag_fits tag class) }
    ensures ok { Appends result out.old out.new (primitive class tag (signed_octets number)) }
    ensures len { Lengthens result out.old out.new (primitive class tag (signed_octets number)) }
    ensures kept { Begins out.old.items out.new.items }
    ensures err { Keeps result out.old out.new }
    ensures full { NeedsRoom result out.old (primitive class tag (signed_octets number)) }
    ensures grows { vec_capacity out.old ≤ vec_capacity out.new }
{
    let before = out.len();
    let written = put_signed(class, tag, number, out);
    whole_or_undone(before, written, out)
}

/// Appends a tag, and the 4 octets of an object's type and instance (clause 20.2.14). Returns `NoMemory` and changes nothing if the
/// vector cannot grow.
///
/// Tag numbers are 0 to 12 except 1 for the application class, and 0 to 254 for the context class.
#[inline(always)]
pub fn write_object_identifier(
    class: Class,
    tag: u8,
    id: ObjectIdentifier,
    out: &mut Vec<u8>,
) -> Result<(), NoMemory>
    requires { IsTrue (length_tag_fits tag class) }
    ensures ok { Appends result out.old out.new (primitive class tag (object_octets (object_identifier_view id))) }
    ensures len { Lengthens result out.old out.new (primitive class tag (object_octets (object_identifier_view id))) }
    ensures kept { Begins out.old.items out.new.items }
    ensures err { Keeps result out.old out.new }
    ensures full { NeedsRoom result out.old (primitive class tag (object_octets (object_identifier_view id))) }
    ensures grows { vec_capacity out.old ≤ vec_capacity out.new }
{
    let before = out.len();
    let written = put_object_identifier(class, tag, id, out);
    whole_or_undone(before, written, out)
}

/// Appends an application Boolean, whose value is part of its tag (clause 20.2.3). Returns `NoMemory` and changes nothing if the
/// vector cannot grow.
#[inline(always)]
pub fn write_boolean(value: bool, out: &mut Vec<u8>) -> Result<(), NoMemory>
    ensures ok { Appends result out.old out.new (tag_spelling (mark_for (boolean value) 0)) }
    ensures len { Lengthens result out.old out.new (tag_spelling (mark_for (boolean value) 0)) }
    ensures kept { Begins out.old.items out.new.items }
    ensures err { Keeps result out.old out.new }
    ensures full { NeedsRoom result out.old (tag_spelling (mark_for (boolean value) 0)) }
    ensures grows { vec_capacity out.old ≤ vec_capacity out.new }
{
    let before = out.len();
    let written = put_boolean(value, out);
    whole_or_undone(before, written, out)
}

/// Law: a value has one spelling; a spelling belongs to one value, and is not the beginning of another value's.
pub fn one_value_spelling()
    ensures only { (d : Datum) (a b : List ℕ) → SpellsValue d a → SpellsValue d b → a ≡ b }
    ensures apart { (d e : Datum) (a b c f : List ℕ) → SpellsValue d a → SpellsValue e b → a ++ c ≡ b ++ f → (d ≡ e) × (a ≡ b) }
{}
