//! Tables as texts: a line for each row, whose parts stand behind spaces.
ghost use Rattle.std.specs.Prelude.{◌≡◌, IfOk};
ghost use Rattle.std.specs.List.{filter_map, find};
ghost use Rattle.std.specs.Option.{option_map};
ghost use Rattle.std.specs.Str.Lines.{lines};
ghost use Rattle.bac_point_text.specs.Lines.{front, behind, heading, number_part, has_number, has_name, name_in, number_in};

use bac_value_text::number_up_to;
use std::alloc::{AllocError, Global};

/// The part of a line before its first space; the whole line if it has none.
pub(crate) fn front(line: &str) -> &str
    ensures { result.now ≡ front line.now }
{
    match line.split_once(' ') {
        Some((front, _)) => front,
        None => line,
    }
}

/// The part of a line after its first space; nothing if it has none.
pub(crate) fn behind(line: &str) -> &str
    ensures { result.now ≡ behind line.now }
{
    match line.split_once(' ') {
        Some((_, behind)) => behind,
        None => "",
    }
}

/// The first line of a table, which is its heading.
pub(crate) fn heading(table: &str) -> &str
    ensures { result.now ≡ heading table.now }
{
    match table.split_once('\n') {
        Some((first, _)) => first,
        None => table,
    }
}

/// The number that a line begins with.
pub(crate) fn number_part(line: &str) -> Option<u32>
    ensures { result ≡ number_part line.now }
{
    let number = number_up_to(u64::from(u32::MAX), front(line).as_bytes())?;
    Some(number as u32)
}

fn has_number(line: &str, number: u32) -> bool
    ensures { result ≡ has_number number line.now }
{
    match number_part(line) {
        Some(other) => other == number,
        None => false,
    }
}

fn has_name(line: &str, name: &[u8]) -> bool
    ensures { result ≡ has_name name.now line.now }
{
    behind(line).as_bytes() == name
}

fn line_with_number(table: &str, number: u32) -> Option<&str>
    ensures { option_map (λ l. l.now) result ≡ find (has_number number) (lines table.now) }
{
    table.lines().find(|line| has_number(line, number))
}

fn line_with_name<'t>(table: &'t str, name: &[u8]) -> Option<&'t str>
    ensures { option_map (λ l. l.now) result ≡ find (has_name name.now) (lines table.now) }
{
    table.lines().find(|line| has_name(line, name))
}

/// The name of a number in a table of lines `NUMBER NAME`.
pub(crate) fn name_in(table: &str, number: u32) -> Option<&str>
    ensures { option_map (λ s. s.now) result ≡ name_in table.now number }
{
    Some(behind(line_with_number(table, number)?))
}

/// The number of a name in a table of lines `NUMBER NAME`.
pub(crate) fn number_in(table: &str, name: &[u8]) -> Option<u32>
    ensures { result ≡ number_in table.now name.now }
{
    number_part(line_with_name(table, name)?)
}

/// The numbers that lines of a table begin with.
pub(crate) fn numbers_in(alloc: Global, table: &str) -> Result<Vec<u32>, AllocError>
    ensures { IfOk result (λ v. v.items ≡ filter_map number_part (lines table.now)) }
{
    table
        .lines()
        .filter_map(|line| number_part(line))
        .collect(alloc)
}
