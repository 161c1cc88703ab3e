//! The forms in which a document states the values of a property.

/// The kinds of application values (clause 20.2.1.4) that have a word in documents.
#[derive(Clone, Copy, Debug, PartialEq, Eq)]
pub enum Kind {
    Null,
    Boolean,
    Unsigned,
    Signed,
    Real,
    Double,
    Octets,
    Text,
    Bits,
    Enumerated,
    Date,
    Time,
    Object,
}

/// The form of values: one value of a kind, or encoded values in hexadecimal.
#[derive(Clone, Copy, Debug, PartialEq, Eq)]
pub enum ValueForm {
    Value(Kind),
    Hex,
}

/// The words for the forms of a property's values.
pub(crate) const FORMS: &[(&str, ValueForm)] = &[
    ("null", ValueForm::Value(Kind::Null)),
    ("boolean", ValueForm::Value(Kind::Boolean)),
    ("unsigned", ValueForm::Value(Kind::Unsigned)),
    ("signed", ValueForm::Value(Kind::Signed)),
    ("real", ValueForm::Value(Kind::Real)),
    ("double", ValueForm::Value(Kind::Double)),
    ("octets", ValueForm::Value(Kind::Octets)),
    ("text", ValueForm::Value(Kind::Text)),
    ("bits", ValueForm::Value(Kind::Bits)),
    ("enumerated", ValueForm::Value(Kind::Enumerated)),
    ("date", ValueForm::Value(Kind::Date)),
    ("time", ValueForm::Value(Kind::Time)),
    ("object", ValueForm::Value(Kind::Object)),
    ("hex", ValueForm::Hex),
];

/// The words for the forms of a file's octets.
pub(crate) const FILE_FORMS: &[(&str, ValueForm)] = &[
    ("hex", ValueForm::Hex),
    ("text", ValueForm::Value(Kind::Text)),
];

impl ValueForm {
    /// The word for the form.
    pub(crate) fn word(self) -> &'static str {
        match self {
            ValueForm::Value(kind) => kind.word(),
            ValueForm::Hex => "hex",
        }
    }
}

impl Kind {
    /// The word for the kind.
    pub fn word(self) -> &'static str {
        match self {
            Kind::Null => "null",
            Kind::Boolean => "boolean",
            Kind::Unsigned => "unsigned",
            Kind::Signed => "signed",
            Kind::Real => "real",
            Kind::Double => "double",
            Kind::Octets => "octets",
            Kind::Text => "text",
            Kind::Bits => "bits",
            Kind::Enumerated => "enumerated",
            Kind::Date => "date",
            Kind::Time => "time",
            Kind::Object => "object",
        }
    }
}
