//! Blanks.
ghost use Rattle.std.specs.Prelude.{◌≡◌};
ghost use Rattle.bac_forms.specs.Blanks.{is_blank, is_space};

/// A space, a tab or a carriage return.
pub(crate) fn is_blank(octet: u8) -> bool
    ensures { result ≡ is_blank octet }
{
    octet == b' ' || octet == b'\t' || octet == b'\r'
}

/// A blank or the end of a line.
pub(crate) fn is_space(octet: u8) -> bool
    ensures { result ≡ is_space octet }
{
    is_blank(octet) || octet == b'\n'
}
