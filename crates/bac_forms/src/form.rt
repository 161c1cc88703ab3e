//! The forms.
ghost use Rattle.std.specs.Prelude.{◌≡◌};
ghost use Rattle.bac_forms.specs.Forms.{form_name, form_named};

/// A form of datagrams in a text.
#[derive(Clone, Copy, Debug, PartialEq, Eq)]
pub enum Form {
    /// Hexadecimal digits, a datagram on each line, as `bac decode -` reads them.
    Hex,
    /// A hex dump with offsets: 16 octets a line, and their characters behind them or not. A line with the offset 0 begins the next datagram.
    HexDump,
    /// A string in quotes with `\x81` for each octet; a backslash behind it joins it with that of the next line.
    Escaped,
    /// Arrays of C, as `{ 0x81, 0x0a }`.
    CArray,
    /// Base64, a datagram on each line.
    Base64,
}

/// What the forms are called, and `auto`.
pub const FORM_NAMES: &str = "auto, hex, hexdump, escaped, c or base64";

impl Form {
    /// The form that a word names; None where it names none.
    pub fn named(name: &str) -> Option<Form>
        ensures { result ≡ form_named name.now }
    {
        match name {
            "hex" => Some(Form::Hex),
            "hexdump" => Some(Form::HexDump),
            "escaped" => Some(Form::Escaped),
            "c" => Some(Form::CArray),
            "base64" => Some(Form::Base64),
            _ => None,
        }
    }

    /// What the form is called.
    pub fn name(self) -> &'static str
        ensures { result.now ≡ form_name self }
    {
        match self {
            Form::Hex => "hex",
            Form::HexDump => "hexdump",
            Form::Escaped => "escaped",
            Form::CArray => "c",
            Form::Base64 => "base64",
        }
    }
}
