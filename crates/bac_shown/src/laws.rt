//! Laws of how a text is shown.
ghost use Rattle.std.specs.Prelude.{ℕ, List};
ghost use Rattle.bac_shown.specs.Laws.{NothingHarmfulIsShown, PlainTextsAreUnchanged};

/// Of no text a harmful character is shown: all that is shown is UTF-8, and of its characters none acts on a terminal or hides, but tabs and line feeds.
pub fn nothing_harmful_is_shown()
    ensures { NothingHarmfulIsShown }
{}

/// A text of characters of which none is harmful is shown as it is, as is a text of ASCII without control characters, but for tabs and line feeds.
pub fn plain_texts_are_unchanged()
    ensures { PlainTextsAreUnchanged }
{}
