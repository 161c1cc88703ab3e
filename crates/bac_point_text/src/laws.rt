//! Laws of texts: empty functions whose contracts are the laws.
ghost use Rattle.bac_point_text.specs.Laws.{AreInverse, AreListed, AreWritten};

use bac_value_text::{names_and_numbers_are_inverse, printed_values_are_read};

/// In each enumeration a name has a number exactly if that number has the name.
pub fn enumerations_are_inverse()
    ensures { AreInverse }
{
    names_and_numbers_are_inverse();
}

/// In the rows of each enumeration each number that has a name stands, and each name reads as the number beside it.
pub fn enumerations_are_listed()
    ensures { AreListed }
{
    enumerations_are_inverse();
}

/// What [`value_alone`](crate::value_alone) prints of a value reads as that value, given its kind: of every value but NaN and infinite numbers,
/// characters of which some are escaped or are not UTF-8, bits by their names, and numbers without a name where others have one.
pub fn plain_texts_are_read()
    ensures { AreWritten }
{
    enumerations_are_inverse();
    printed_values_are_read();
}
