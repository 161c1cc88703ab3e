//! Worlds in which a node lets clients use an invoke ID again, beside one in which none does.
use super::worlds::{Went, happens, ruled_clock_world, ruled_world, small_world};
use bac_network::{Fact, World};
use bac_rows::holds;
use std::alloc::Global;
use std::test::Fail;

/// A read is asked, and its request comes twice.
const LINES: &[&str] = &["ask 0 1 read 0:5 85", "deliver 0", "deliver 0"];

/// How many requests were performed once these lines happened; None where one did not.
fn performed(alloc: Global, world: Option<World>) -> Option<usize> {
    let mut world = world?;
    for line in LINES {
        if happens(alloc, &mut world, line) != Went::On {
            return None;
        }
    }
    let facts = world.log().iter();
    Some(
        facts
            .filter(|fact| matches!(fact, Fact::Performed { .. }))
            .count(),
    )
}

#[test]
fn read_is_performed_anew_where_invoke_ids_are_used_again(rt: HostRuntime) -> Result<(), Fail> {
    let alloc = rt.alloc();
    holds(
        performed(alloc, small_world(alloc)) == Some(1),
        "a strict node",
    )?;
    holds(
        performed(alloc, ruled_world(alloc)) == Some(2),
        "a node of fresh reads",
    )?;
    let of_clocks = ruled_clock_world(alloc, &[0, 0, 0]);
    holds(
        performed(alloc, of_clocks) == Some(2),
        "one with a clock of its own",
    )
}
