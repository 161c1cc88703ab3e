//! What is wrong at a key of a document.
use crate::form::Kind;
use std::fmt;

/// What is expected at a key.
#[derive(Clone, Copy, Debug, PartialEq, Eq)]
pub enum Wanted {
    /// The document has only the key `object`, with a list of tables.
    Objects,
    /// The document has only the keys `described` and `object`, the latter with a list of tables.
    DescribedObjects,
    /// At most 10,000 objects in a document that does not describe them.
    FewObjects,
    /// An object is a table.
    Table,
    /// At most 1,024 keys in an object.
    FewKeys,
    /// Tables of an object that a step reads: at most 262,144 octets, without comments, and 8,192 keys.
    ShortTable,
    /// An object type that a store supports, by its name or its number.
    ServedType,
    /// Any object type, by its name or its number from 0 to 1,023.
    ObjectType,
    /// The instance of an object: 0 to 4,194,302.
    Instance,
    /// Any instance: 0 to 4,194,303.
    AnyInstance,
    /// A type and an instance that together differ from those of earlier objects.
    OwnIdentifier,
    /// A text.
    Text,
    /// A text whose encoding has at most 4,096 octets.
    ShortName,
    /// A name of at least one character.
    FilledName,
    /// A property that can be listed: description, present-value, or a proprietary one by its number from 512 to 4,194,303.
    Property,
    /// Any property, by its name or its number.
    AnyProperty,
    /// A property that the object does not have so far.
    OwnProperty,
    /// A table with a value under the word of its kind.
    Value,
    /// One value and no other key but `writable`.
    OneValue,
    /// One value and no other key but `writable` and limits.
    LimitedValue,
    /// Limits: `min` and `max`, or `one-of`, or neither.
    Limits,
    /// A list of values.
    List,
    /// A flag: `writable = true` or `writable = false`.
    Mark,
    /// `true`.
    True,
    /// `true` or `false`.
    Boolean,
    /// An integer of at least 0.
    Unsigned,
    /// An integer.
    Integer,
    /// A number: an integer, one with a point or an exponent, or inf or nan.
    Float,
    /// A number that is finite in 32 bits.
    Single,
    /// An integer from 0 to 4,294,967,295.
    Enumerated,
    /// A name that the standard gives such a number.
    Name,
    /// A text of digits 0 and 1.
    Bits,
    /// A text of octets in hexadecimal.
    Hex,
    /// Octets in hexadecimal that encode data.
    Spelling,
    /// A date from 1900 to 2154, without a time.
    Date,
    /// A time of day, without a date.
    Time,
    /// A table with a type and an instance.
    Identifier,
    /// A value of this kind, for the property of this type of object.
    Kind(Kind),
    /// Enumerated 0 or 1, for the present-value of a binary object.
    State,
    /// An Unsigned from 1 on, for the present-value of a multi-state object.
    MultiState,
    /// An Unsigned that is at most the number-of-states of its object.
    NumberedState,
    /// Values whose encoding has at most 4,096 octets.
    ShortValue,
    /// The octets of a file.
    File,
    /// At most 60,000 octets of a file.
    ShortFile,
}

/// What is found at a key instead.
#[derive(Clone, Copy, Debug, PartialEq, Eq)]
pub enum Given {
    Nothing,
    Text,
    Integer,
    Float,
    Boolean,
    DateTime,
    Array,
    Table,
    /// Something of the expected form, but not one of the expected values.
    Other,
    /// More than is expected.
    More,
    /// Something that an earlier key or object has too.
    Again,
    /// A value of another kind.
    Kind(Kind),
    /// An encoding of other values.
    Hex,
}

/// What is expected at a key, and what is found.
#[derive(Clone, Copy, Debug, PartialEq, Eq)]
pub struct Problem {
    pub wanted: Wanted,
    pub given: Given,
}

impl Wanted {
    pub(crate) fn words(self) -> &'static str {
        match self {
            Wanted::Objects => "only [[object]] tables",
            Wanted::DescribedObjects => "only described and [[object]] tables",
            Wanted::FewObjects => "at most 10000 objects",
            Wanted::Table => "table",
            Wanted::FewKeys => "at most 1024 keys",
            Wanted::ShortTable => "at most 262144 octets and 8192 keys in an object",
            Wanted::ServedType => {
                "analog-input, analog-value, binary-value, device, file or 128 to 1023"
            }
            Wanted::ObjectType => "object type or 0 to 1023",
            Wanted::Instance => "0 to 4194302",
            Wanted::AnyInstance => "0 to 4194303",
            Wanted::OwnIdentifier => "unique type and instance",
            Wanted::Text => "text",
            Wanted::ShortName => "at most 4091 octets",
            Wanted::FilledName => "at least one character",
            Wanted::Property => "description, present-value or 512 to 4194303",
            Wanted::AnyProperty => "property or 0 to 4194303",
            Wanted::OwnProperty => "each property once",
            Wanted::Value => "table with a value",
            Wanted::OneValue => "one KIND = VALUE",
            Wanted::LimitedValue =>
                "one KIND = VALUE, with at most writable, min and max, or one-of",
            Wanted::Limits => "min and max, or one-of",
            Wanted::List => "list of values",
            Wanted::Mark => "writable = true or false",
            Wanted::True => "true",
            Wanted::Boolean => "true or false",
            Wanted::Unsigned => "integer of at least 0",
            Wanted::Integer => "integer",
            Wanted::Float => "number with a decimal point",
            Wanted::Single => "number that fits in 32 bits",
            Wanted::Enumerated => "0 to 4294967295",
            Wanted::Name => "name in the standard",
            Wanted::Bits => "text of digits 0 and 1",
            Wanted::Hex => "octets in hexadecimal",
            Wanted::Spelling => "encoded values in hexadecimal",
            Wanted::Date => "date from 1900 to 2154",
            Wanted::Time => "time of day",
            Wanted::Identifier => "table with type and instance",
            Wanted::Kind(kind) => kind.word(),
            Wanted::State => "enumerated 0 or 1",
            Wanted::MultiState => "unsigned of at least 1",
            Wanted::NumberedState => "1 to number-of-states",
            Wanted::ShortValue => "at most 4096 octets",
            Wanted::File => "octets of the file",
            Wanted::ShortFile => "at most 60000 octets",
        }
    }
}

impl Given {
    fn words(self) -> &'static str {
        match self {
            Given::Nothing => "nothing",
            Given::Text => "text",
            Given::Integer => "integer",
            Given::Float => "float",
            Given::Boolean => "boolean",
            Given::DateTime => "date or time",
            Given::Array => "array",
            Given::Table => "table",
            Given::Other => "something else",
            Given::More => "more",
            Given::Again => "a duplicate",
            Given::Kind(kind) => kind.word(),
            Given::Hex => "encoded values of another kind",
        }
    }
}

impl fmt::Display for Problem {
    fn fmt<W: fmt::Write>(&self, f: &mut fmt::Formatter<W>) -> fmt::Result {
        let wanted = self.wanted.words();
        let given = self.given.words();
        write!(f, "expected {wanted}, found {given}")
    }
}
