//! What the tables of nodes hold, in every world that was reached.

ghost use Rattle.std.specs.Prelude.{ℕ, List};
ghost use Rattle.bac_protocol.specs.Pace.{IsTimely};
ghost use Rattle.bac_world.specs.World.{World, Event, WorldRun, IsFresh, IsBounded};
ghost use Rattle.bac_liveness.specs.FreeIds.{FreeIdsAreUnused};
ghost use Rattle.bac_liveness.specs.Room.{HaveRoom};

/// In every world that a run of a fresh one led to: where a client does not wait after a restart and holds no slot with an invoke ID for a server, that
/// server has no live entry of them; so the server of an accepted ask has none for it.
pub fn free_ids_are_unused()
    ensures { (W overtake : ℕ) (first old : World) → IsFresh first → IsTimely first.time.pace → IsBounded W overtake first → (events : List Event)
        → WorldRun overtake first events old
        → FreeIdsAreUnused old }
{}

/// In every world that a run of a fresh one led to, no node holds more client slots, and no reply table has more live entries, than there are slots.
pub fn tables_have_room()
    ensures { (overtake : ℕ) (first old : World) → IsFresh first → (events : List Event) → WorldRun overtake first events old → HaveRoom old }
{}
