//! The elements of data, one by one.
ghost use Rattle.std.specs.Prelude.{◌≡◌, ◌++◌, [], MatchOption};
ghost use Rattle.bac_value.specs.Data.{SomeElements};
ghost use Rattle.bac_value.specs.Element.{part_spelling, SpellsElement};

use crate::element::Element;
use crate::element_reading::take_element;
use crate::octets::slice_len;

/// The remaining elements of some data, in order; opening and closing tags are elements of their own.
#[derive(Clone, Copy, Debug)]
pub struct DataElements<'a> {
    /// The encoded remaining elements, one after the other.
    pub octets: &'a [u8],
    pub ghost whole: { ∥ SomeElements octets.now ∥₁ },
}

impl<'a> DataElements<'a> {
    ghost use Rattle.bac_value.specs.Views.{element_view};

    /// The first element and the elements after it; None exactly at the end.
    pub fn split_first(self) -> Option<(Element<&'a [u8]>, DataElements<'a>)>
        ensures { MatchOption result (self.entry.octets.now ≡ [])
            (λ r. SpellsElement (element_view (λ s. s.now) r.0) (part_spelling (element_view (λ s. s.now) r.0))
            × (self.entry.octets.now ≡ part_spelling (element_view (λ s. s.now) r.0) ++ r.1.octets.now)) }
    {
        if slice_len(self.octets) == 0 {
            return None;
        }
        match take_element(self.octets) {
            Ok((element, octets)) => Some((element, DataElements { octets })),
            Err(_) => unreachable!(),
        }
    }
}
