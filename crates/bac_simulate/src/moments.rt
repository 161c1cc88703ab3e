//! Moments of a world in whole milliseconds of real time.
ghost use Rattle.std.specs.Prelude.{◌≡◌, ◌≤◌};
ghost use Rattle.bac_simulate.specs.Moments as plain;

use bac_network::World;

/// How many parts of a moment a millisecond has.
pub(crate) fn parts_in(world: &World) -> u64
    ensures is { result ≡ plain.parts_in world.now }
    ensures some { 1 ≤ result }
{
    world.parts()
}

/// The present one.
pub(crate) fn ms_now(world: &World) -> u64
    ensures { result ≡ plain.ms_now world.now }
{
    world.now() / parts_in(world)
}
