//! What is wrong with an object that a plain start refuses.
ghost use Rattle.std.specs.Prelude.{◌≡◌};
ghost use Rattle.bac_c.specs.Taking.{plain_flaw_number};

/// What is wrong with an object that a plain start refuses. The numbers of what a start of a described node refuses too are those of its flaws.
#[derive(Clone, Copy, Debug, PartialEq, Eq)]
pub enum Flaw {
    /// The instance is 4,194,303, the wildcard (clause 20.2.14).
    Instance = 1,
    /// The name is longer than 4,091 octets.
    Name = 2,
    /// The object is a file without contents, or no file but with contents, or they are longer than 60,000 octets.
    File = 3,
    /// The property is none of 28, 85 and 512 to 4,194,303.
    Number = 4,
    /// The object lists the property twice.
    Twice = 5,
    /// The values are longer than 4,096 octets, or none that this property of an object of this type has.
    Values = 6,
    /// The limits don't allow the values, or are of another kind.
    Limits = 7,
    /// An earlier object has the same identifier.
    SameIdentifier = 8,
    /// The type is none of 0, 2, 5, 8, 10 and 128 to 1,023.
    Type = 13,
}

impl Flaw {
    /// Its number, 1 to 13 (own numbers of this library).
    pub fn number(self) -> u8
        ensures { result ≡ plain_flaw_number self }
    {
        self as u8
    }
}
