//! Characters that act on a terminal, or hide.
ghost use Rattle.std.specs.Prelude.{◌≡◌};
ghost use Rattle.bac_shown.specs.Harmful.{is_harmful, is_hidden};
ghost use Rattle.ucd_category.specs.GeneralCategory.{general_category_eq};

use ucd_category::GeneralCategory;

fn are_same(category: GeneralCategory, other: GeneralCategory) -> bool
    ensures { result ≡ general_category_eq category other }
{
    category.number() == other.number()
}

/// Whether characters of this category show nothing of their own.
fn is_hidden(category: GeneralCategory) -> bool
    ensures { result ≡ is_hidden category }
{
    are_same(category, GeneralCategory::Control)
        || are_same(category, GeneralCategory::Format)
        || are_same(category, GeneralCategory::LineSeparator)
        || are_same(category, GeneralCategory::ParagraphSeparator)
        || are_same(category, GeneralCategory::Unassigned)
}

/// Whether a character would act on a terminal, or hide: all that show nothing of their own, but a tab and a line feed.
pub(crate) fn is_harmful(character: char) -> bool
    ensures { result ≡ is_harmful character }
{
    is_hidden(GeneralCategory::for_char(character)) && character != '\t' && character != '\n'
}
