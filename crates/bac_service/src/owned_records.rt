//! Owned records of a file.
ghost use Rattle.bac_service.specs.Runs.{AreStrings};

/// Records of a file that own their octets.
#[derive(Debug, Drop)]
pub struct OwnedRecords {
    /// The octet strings, each with its application tag, one after the other.
    pub run: Vec<u8>,
    /// How many octet strings there are.
    pub count: u64,
    pub ghost counted: { ∥ AreStrings count run.items ∥₁ },
}
