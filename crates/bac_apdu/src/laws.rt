//! Laws of the definitions: empty functions whose contracts are the laws.
ghost use Rattle.std.specs.Prelude.{◌≡◌, ◌<◌, ◌^◌, ℕ, List};
ghost use Rattle.bac_value.specs.Value.{SpellsValue, enumerated};
ghost use Rattle.bac_apdu.specs.Apdu.{Apdu};
ghost use Rattle.bac_apdu.specs.Spelling.{SpellsApdu, enumerated_spelling};

/// Octets encode at most one APDU.
pub fn one_apdu_spelling()
    ensures { (a b : Apdu) (octets : List ℕ) → SpellsApdu a octets → SpellsApdu b octets → a ≡ b }
{}

/// The class and the code of an Error are encoded as application values.
pub fn error_members_are_values()
    ensures { (n : ℕ) → n < 2 ^ 32 → SpellsValue (enumerated n) (enumerated_spelling n) }
{}
