//! The kinds of values.
ghost use Rattle.std.specs.Prelude.{◌≡◌};
ghost use Rattle.bac_value.specs.Views.{value_view};
ghost use Rattle.bac_point_text.specs.Kinds.{kind_of};

use bac_value::Value;

/// The kind of a value: its application tag (clause 20.2.1.4).
#[derive(Clone, Copy, Debug, PartialEq, Eq)]
pub enum Kind {
    /// No value.
    Null,
    /// `true` or `false`.
    Boolean,
    /// A whole number from 0 on.
    Unsigned,
    /// A whole number.
    Signed,
    /// A number in 32 bits of floating point.
    Real,
    /// A number in 64 bits of floating point.
    Double,
    /// Octets.
    OctetString,
    /// A text.
    CharacterString,
    /// Bits.
    BitString,
    /// A number that stands for a name.
    Enumerated,
    /// A date.
    Date,
    /// A time of day.
    Time,
    /// An object identifier.
    ObjectIdentifier,
}

impl Kind {
    /// The kind of a value.
    pub fn of(value: &Value) -> Kind
        ensures { result ≡ kind_of (value_view value.now) }
    {
        match value {
            Value::Null => Kind::Null,
            Value::Boolean(_) => Kind::Boolean,
            Value::Unsigned(_) => Kind::Unsigned,
            Value::Signed(_) => Kind::Signed,
            Value::Real(_) => Kind::Real,
            Value::Double(_) => Kind::Double,
            Value::OctetString(_) => Kind::OctetString,
            Value::CharacterString(_) => Kind::CharacterString,
            Value::BitString(_) => Kind::BitString,
            Value::Enumerated(_) => Kind::Enumerated,
            Value::Date(_) => Kind::Date,
            Value::Time(_) => Kind::Time,
            Value::ObjectIdentifier(_) => Kind::ObjectIdentifier,
        }
    }
}
