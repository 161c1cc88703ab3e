//! Look-ups in tables of names and numbers.
ghost use Rattle.std.specs.Prelude.{◌≡◌, IfSome};
ghost use Rattle.std.specs.Option.{option_map};
ghost use Rattle.bac_value_text.specs.Names.{name_in as name_of, number_in as number_of, plain};

/// The number of the name with these octets.
#[tactic(auto, using(crate::proofs::Looking::number_next))]
pub(crate) fn number_in(rows: &[(&str, u32)], name: &[u8]) -> Option<u32>
    ensures { result ≡ number_of (plain rows.now) name.now }
{
    for row in rows {
        if row.0.as_bytes() == name {
            return Some(row.1);
        }
    }
    None
}

/// The name of a number.
#[tactic(auto, using(crate::proofs::Looking::name_next))]
pub(crate) fn name_in(rows: &[(&'static str, u32)], number: u32) -> Option<&'static str>
    ensures { option_map (λ s. s.now) result ≡ name_of (plain rows.now) number }
{
    for row in rows {
        if row.1 == number {
            return Some(row.0);
        }
    }
    None
}
