//! The enumerations of the standard, by name and by number.
ghost use Rattle.std.specs.Prelude.{◌≡◌, ◌++◌, map, IfOk, OnOk};
ghost use Rattle.std.specs.List.{find, range_with_len};
ghost use Rattle.std.specs.Option.{option_map};
ghost use Rattle.bac_point_text.specs.Enumerations.{TABLES, has_heading, word_of, named, name_of, number_of, numbers_of, rows_at, rows_of};
ghost use Rattle.bac_point_text.specs.Views.{names_view, row_view};

use crate::lines::{heading, name_in, number_in, numbers_in};
use crate::names;
use bac_value_text::{object_type_name, object_type_named, property_name, property_named};
use std::alloc::{AllocError, Global};

/// The heading of the object types, whose names stand elsewhere.
const OBJECT_TYPE: &str = "object-type";

/// The heading of the properties, whose names stand elsewhere.
const PROPERTY_IDENTIFIER: &str = "property-identifier";

/// The standard names no object type and no property with this number or a greater one.
const NUMBERS: u32 = 1_024;

/// An enumeration of the standard, or the bits of a bit string that it names (clause 21): names, and the number of each.
#[derive(Clone, Copy, Debug)]
pub enum Enumeration {
    /// BACnetObjectType.
    ObjectType,
    /// BACnetPropertyIdentifier.
    PropertyIdentifier,
    /// One of the others.
    Listed(Listed),
}

/// A number of an enumeration, and its name.
#[derive(Clone, Copy, Debug)]
pub struct NamedNumber {
    /// The number.
    pub number: u32,
    /// Its name.
    pub name: &'static str,
}

/// An enumeration with a table of its own.
#[derive(Clone, Copy, Debug)]
pub struct Listed {
    table: &'static str,
}

/// All tables.
pub(crate) fn tables() -> &'static [&'static str]
    ensures { map (λ t. t.now) result.now ≡ TABLES }
{
    names::TABLES
}

/// The table whose heading is that word.
#[tactic(auto, using(crate::proofs::Tables::heading_next))]
fn table_in(tables: &[&'static str], word: &str) -> Option<&'static str>
    ensures { option_map (λ t. t.now) result ≡ find (has_heading word.now) (map (λ t. t.now) tables.now) }
{
    for table in tables {
        if heading(*table) == word {
            return Some(*table);
        }
    }
    None
}

/// The numbers below that one.
fn numbers_below(alloc: Global, count: u32) -> Result<Vec<u32>, AllocError>
    ensures { IfOk result (λ v. v.items ≡ range_with_len 0 count) }
{
    (0..count).collect(alloc)
}

impl Enumeration {
    /// The word for the enumeration: its name in clause 21 in lower case with no `BACnet`, for example `engineering-units`.
    pub fn word(self) -> &'static str
        ensures { result.now ≡ word_of (names_view self) }
    {
        match self {
            Enumeration::ObjectType => OBJECT_TYPE,
            Enumeration::PropertyIdentifier => PROPERTY_IDENTIFIER,
            Enumeration::Listed(listed) => heading(listed.table),
        }
    }

    /// The enumeration with that word; None if there is none.
    pub fn named(word: &str) -> Option<Enumeration>
        ensures { option_map names_view result ≡ named word.now }
    {
        if word == OBJECT_TYPE {
            return Some(Enumeration::ObjectType);
        }
        if word == PROPERTY_IDENTIFIER {
            return Some(Enumeration::PropertyIdentifier);
        }
        let table = table_in(tables(), word)?;
        Some(Enumeration::Listed(Listed { table }))
    }

    /// The name of a number, for example `degrees-celsius` of 62 among the engineering units; None if the standard has no name for it.
    pub fn name_of(self, number: u32) -> Option<&'static str>
        ensures { option_map (λ s. s.now) result ≡ name_of (names_view self) number }
    {
        match self {
            Enumeration::ObjectType => object_type_name(number),
            Enumeration::PropertyIdentifier => property_name(number),
            Enumeration::Listed(listed) => name_in(listed.table, number),
        }
    }

    /// The number of the name with these octets; None if the enumeration has no such name.
    pub fn number_of(self, name: &[u8]) -> Option<u32>
        ensures { result ≡ number_of (names_view self) name.now }
    {
        match self {
            Enumeration::ObjectType => object_type_named(name),
            Enumeration::PropertyIdentifier => property_named(name),
            Enumeration::Listed(listed) => number_in(listed.table, name),
        }
    }

    /// Numbers among which are all that have a name.
    fn numbers(self, alloc: Global) -> Result<Vec<u32>, AllocError>
        ensures { IfOk result (λ v. v.items ≡ numbers_of (names_view self)) }
    {
        match self {
            Enumeration::ObjectType => numbers_below(alloc, NUMBERS),
            Enumeration::PropertyIdentifier => numbers_below(alloc, NUMBERS),
            Enumeration::Listed(listed) => numbers_in(alloc, listed.table),
        }
    }

    /// Adds a number with its name, if it has one.
    fn add_row(self, number: u32, rows: &mut Vec<NamedNumber>) -> Result<(), AllocError>
        ensures { OnOk result (map row_view rows.new.items ≡ map row_view rows.old.items ++ rows_at (names_view self) number) }
    {
        if let Some(name) = self.name_of(number) {
            rows.push(NamedNumber { number, name })?;
        }
        Ok(())
    }

    /// All numbers that have a name, and their names. An Err says that an allocation failed.
    pub fn rows(self, alloc: Global) -> Result<Vec<NamedNumber>, AllocError>
        ensures are { IfOk result (λ rows. map row_view rows.items ≡ rows_of (names_view self)) }
    {
        let numbers = self.numbers(alloc)?;
        let mut rows = Vec::new(alloc);
        for number in &numbers {
            self.add_row(*number, &mut rows)?;
        }
        Ok(rows)
    }
}
