//! Laws of straight runs in every world that was reached.
ghost use Rattle.std.specs.Prelude.{ℕ, List};
ghost use Rattle.bac_protocol.specs.Pace.{IsTimely};
ghost use Rattle.bac_world.specs.World.{World, Event, WorldRun, IsFresh, IsBounded};
ghost use Rattle.bac_network.specs.Open.{OpenUntilEnded};
ghost use Rattle.bac_network.specs.Tells.{LogTells, LoopGoesOn};

/// In every world that a run of a fresh one led to, copies are delivered after an ask. Meanwhile its ticket is open exactly as long as the log has no
/// ending of it.
pub fn open_until_ended()
    ensures { (W overtake : ℕ) (opening old : World) → IsFresh opening → IsTimely opening.time.pace → IsBounded W overtake opening
        → (events : List Event) → WorldRun overtake opening events old → OpenUntilEnded overtake old }
{}

/// A loop over the numbers of copies delivers one after the other, as long as the log has no ending of an ask. It keeps what it has delivered and
/// which facts are older than the ask.
#[tactic(auto, using(crate::proofs::Tells::loop_goes_on))]
pub fn loop_goes_on()
    ensures { LoopGoesOn }
{}

/// In every world that a run of a fresh one led to, such a loop after an ask makes a run. It stops since the log has an ending of the ask, or no copy
/// is left. Then it was a straight run, with that ending. Where the ask can be answered it was performed once and answered, with few deliveries.
pub fn log_tells()
    ensures { (W overtake : ℕ) (opening old : World) → IsFresh opening → IsTimely opening.time.pace → IsBounded W overtake opening
        → (events : List Event) → WorldRun overtake opening events old → LogTells overtake old }
{}
