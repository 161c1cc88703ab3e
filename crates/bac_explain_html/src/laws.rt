//! Laws of the definitions: empty functions whose contracts are the laws.
ghost use Rattle.std.specs.Prelude.{◌≡◌, false, ℕ, List};
ghost use Rattle.bac_explain_html.specs.Escapes.{escaped, has_markup};

/// What stands for a text has no angle bracket and no quote, whatever the text: it begins no tag, and ends no attribute.
pub fn escaped_texts_have_no_markup()
    ensures { (text : List ℕ) → has_markup (escaped text) ≡ false }
{}
