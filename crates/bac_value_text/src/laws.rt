//! Laws of texts: empty functions whose contracts are the laws.
ghost use Rattle.bac_value_text.specs.Laws.{AreRead};

use crate::names_and_numbers_are_inverse;

/// Every printed text of a value reads as that value.
pub fn printed_values_are_read()
    ensures { AreRead }
{
    names_and_numbers_are_inverse();
}
