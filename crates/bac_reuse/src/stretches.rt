//! Runs in stretches: from one to the next nodes may have other settings, and a server that restarts may let clients use an invoke ID again from then on, or no more.

ghost use Rattle.std.specs.Prelude.{ℕ, Bool, List};
ghost use Rattle.bac_protocol.specs.Claims.{IsBounded};
ghost use Rattle.bac_protocol.specs.Log.{StoreModel};
ghost use Rattle.bac_protocol.specs.Pace.{IsTimely, Pace};
ghost use Rattle.bac_protocol.specs.World.{Net, net_start, start};
ghost use Rattle.bac_reuse.specs.Moves.{IsInOrderSo, IsReachedSoIn};
ghost use Rattle.bac_reuse.specs.Once.{IsOnceSo};
ghost use Rattle.bac_reuse.specs.Runs.{AreOf, ReadsChangeNothing, Reusing};
ghost use Rattle.bac_reuse.specs.StretchExamples.{ReadsTurn};
ghost use Rattle.bac_reuse.specs.Stretches.{ArePermitted, Stretch, run_so_in};

/// The headline in both modes, over restarts with other settings. It speaks of the servers that ever let invoke IDs be used again: only these may perform a read
/// more than once.
pub fn at_most_once<S>()
    ensures { (model : StoreModel S) (opening : ℕ → S) (W : ℕ) (ever : Reusing) → ReadsChangeNothing S model ever.reads → (pace : Pace) → IsTimely pace
        → (clocks : ℕ → ℕ) → (before : ℕ → Bool) → AreOf before ever → (stretches : List Stretch) → ArePermitted W ever before stretches
        → IsOnceSo S model ever opening (run_so_in S model ever stretches (start S pace clocks opening)).net.log
        (run_so_in S model ever stretches (start S pace clocks opening)).stores }
{}

/// After any list of single moves, each by rules of its own, a net is in order, whichever servers let invoke IDs be used again from a restart on.
pub fn moves_keep_order()
    ensures { (W : ℕ) (ever : Reusing) (pace : Pace) → IsTimely pace → (clocks : ℕ → ℕ) → (reuses : ℕ → Bool) (net : Net)
        → IsReachedSoIn (IsBounded W) ever (net_start pace clocks) reuses net → IsInOrderSo ever net }
{}

/// A server restarts, and lets clients use an invoke ID again from then on: a read that comes twice is performed twice, and before that once.
#[tactic(auto, using(crate::proofs::Computed::reads_turn))]
pub fn reads_turn()
    ensures { ReadsTurn }
{}
