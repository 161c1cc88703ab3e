//! Runs in stretches: from one to the next nodes may have other settings, and a node that restarts may let clients use an invoke ID again from then on, or no more.

ghost use Rattle.std.specs.Prelude.{ℕ, List};
ghost use Rattle.bac_protocol.specs.Pace.{IsTimely};
ghost use Rattle.bac_world.specs.Claims.{AreServedApart};
ghost use Rattle.bac_world.specs.LongApdus.{RepliesFit, TakeLongApdus};
ghost use Rattle.bac_world.specs.Once.{IsOnce};
ghost use Rattle.bac_world.specs.ReusingLogs.{IsOnceSo, NoneReuses, Reuses};
ghost use Rattle.bac_world.specs.Stretches.{AreOf, ArePermitted, Stretch, TakeLongThroughout, WorldRunIn};
ghost use Rattle.bac_world.specs.World.{IsBounded, IsFresh, World, stores_of};

/// The headline holds over restarts with other settings: windows, APDU sizes, how many segments a node takes, and whether it lets clients use an invoke ID again.
/// All windows stay within one bound. Only nodes that ever let invoke IDs be used again may perform a read more than once.
pub fn at_most_once()
    ensures once { (W overtake : ℕ) (ever before : Reuses) → AreOf before ever → (w w' : World) → IsFresh w → IsTimely w.time.pace → IsBounded W overtake w
        → (stretches : List Stretch) → ArePermitted W ever before stretches → WorldRunIn overtake w stretches w'
        → IsOnceSo ever (stores_of w.nodes) w'.log (stores_of w'.nodes) }
    ensures once_without_reuse { (W overtake : ℕ) (ever before : Reuses) → AreOf before ever → (w w' : World) → IsFresh w → IsTimely w.time.pace
        → IsBounded W overtake w → (stretches : List Stretch) → ArePermitted W ever before stretches → WorldRunIn overtake w stretches w' → NoneReuses ever
        → IsOnce (stores_of w.nodes) w'.log (stores_of w'.nodes) }
    ensures apart { (W overtake : ℕ) (ever before : Reuses) → AreOf before ever → (w w' : World) → IsFresh w → IsTimely w.time.pace → IsBounded W overtake w
        → (stretches : List Stretch) → ArePermitted W ever before stretches → WorldRunIn overtake w stretches w' → NoneReuses ever → AreServedApart w' }
{}

/// Where all nodes take APDUs of 480 octets or more throughout, and who asks one knows that, the same holds whatever overtakes what.
pub fn long_apdus_need_no_bound_on_overtaking()
    ensures once { (W overtake : ℕ) (ever before : Reuses) → AreOf before ever → (w w' : World) → IsFresh w → IsTimely w.time.pace → TakeLongApdus W w
        → (stretches : List Stretch) → ArePermitted W ever before stretches → TakeLongThroughout stretches → WorldRunIn overtake w stretches w'
        → RepliesFit w'.log → IsOnceSo ever (stores_of w.nodes) w'.log (stores_of w'.nodes) }
    ensures once_without_reuse { (W overtake : ℕ) (ever before : Reuses) → AreOf before ever → (w w' : World) → IsFresh w → IsTimely w.time.pace
        → TakeLongApdus W w → (stretches : List Stretch) → ArePermitted W ever before stretches → TakeLongThroughout stretches
        → WorldRunIn overtake w stretches w' → RepliesFit w'.log → NoneReuses ever → IsOnce (stores_of w.nodes) w'.log (stores_of w'.nodes) }
    ensures apart { (W overtake : ℕ) (ever before : Reuses) → AreOf before ever → (w w' : World) → IsFresh w → IsTimely w.time.pace → TakeLongApdus W w
        → (stretches : List Stretch) → ArePermitted W ever before stretches → TakeLongThroughout stretches → WorldRunIn overtake w stretches w'
        → RepliesFit w'.log → NoneReuses ever → AreServedApart w' }
{}
