//! Flags and numbers that the words of a command line give.
ghost use Rattle.bac_environment.specs.Given.{IsFlag, IsNumber};

use clap::ArgMatches;

/// Whether the flag of that name is given.
pub fn flag_of(given: &ArgMatches<'_>, name: &str) -> bool
    ensures { IsFlag given.now name.now result }
{
    given.get_flag(name)
}

/// The number given by the argument of that name. None if it is not given.
pub fn number_of(given: &ArgMatches<'_>, name: &str) -> Option<u64>
    ensures { IsNumber given.now name.now result }
{
    given.get_one(name)
}
