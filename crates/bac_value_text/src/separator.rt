//! The separator between the name of a kind and a value.
ghost use Rattle.std.specs.Prelude.{◌≡◌};
ghost use Rattle.bac_value_text.specs.Numbers.{separator_octet};

/// The separator between the name of a kind and a value.
#[derive(Clone, Copy, Debug, PartialEq, Eq)]
pub enum Separator {
    /// A colon, as in a word of a request: `real:72.5`.
    Colon,
    /// A space, as in a printed line: `real 72.5`.
    Space,
}

impl Separator {
    /// The octet of the separator.
    pub fn octet(self) -> u8
        ensures { result ≡ separator_octet self }
    {
        match self {
            Separator::Colon => b':',
            Separator::Space => b' ',
        }
    }
}
