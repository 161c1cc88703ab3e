//! Laws of the tables of names: empty functions whose contracts are the laws.
ghost use Rattle.bac_value_text.specs.Names.{AreInverse};
ghost use Rattle.bac_value_text.specs.AbortReasons.{ABORT_REASONS};
ghost use Rattle.bac_value_text.specs.ErrorClasses.{ERROR_CLASSES};
ghost use Rattle.bac_value_text.specs.ErrorCodes.{ERROR_CODES};
ghost use Rattle.bac_value_text.specs.ObjectTypes.{OBJECT_TYPES};
ghost use Rattle.bac_value_text.specs.Properties.{PROPERTIES};
ghost use Rattle.bac_value_text.specs.RejectReasons.{REJECT_REASONS};

/// A name has a number exactly if that number has the name: each name and each number appears once in its table.
pub fn names_and_numbers_are_inverse()
    ensures object_types { AreInverse OBJECT_TYPES }
    ensures properties { AreInverse PROPERTIES }
    ensures error_classes { AreInverse ERROR_CLASSES }
    ensures error_codes { AreInverse ERROR_CODES }
    ensures reject_reasons { AreInverse REJECT_REASONS }
    ensures abort_reasons { AreInverse ABORT_REASONS }
{}
