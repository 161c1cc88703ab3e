//! Laws of the definitions: empty functions whose contracts are the laws. V is how many later copies may overtake one in the
//! network, W the greatest window size.
ghost use Rattle.std.specs.Prelude.{◌≡◌, ℕ, ◌+◌, ◌*◌, ◌≤◌, List, [], length};
ghost use Rattle.bac_segment.specs.Laws.{AreDifferent, TakesOnlyExpected, KeepsFirst, AcknowledgesOnlyWindow, AcknowledgesWindow, IsUndone};
ghost use Rattle.bac_segment.specs.Pieces.{ArePieces, pieces_of};
ghost use Rattle.bac_segment.specs.Window.{Outgoing, Incoming, incoming, AreFirst};

/// Octets have one list of pieces of a given size.
#[tactic(auto, using(crate::proofs::Unique::pieces_are, crate::proofs::Unique::pieces_are_one))]
pub fn pieces_are_unique()
    ensures are { (size : ℕ) (octets : List ℕ) → 1 ≤ size → ArePieces size octets (pieces_of size octets) }
    ensures only { (size : ℕ) (octets : List ℕ) (pieces : List (List ℕ)) → 1 ≤ size
        → ArePieces size octets pieces → pieces ≡ pieces_of size octets }
{}

/// There are no more pieces than octets, and no octets have no pieces.
#[tactic(auto, using(crate::proofs::Unique::pieces_are_few))]
pub fn pieces_are_few()
    ensures few { (size : ℕ) (octets : List ℕ) → 1 ≤ size → length (pieces_of size octets) ≤ length octets }
    ensures none { (size : ℕ) → pieces_of size [] ≡ [] }
{}

/// The whole numbers in reach have different remainders modulo 256 if V + 2W is at most 255, and only then.
#[tactic(auto, using(crate::proofs::Reach::are_different, crate::proofs::Reach::bound_is_needed))]
pub fn numbers_in_reach_differ()
    ensures differ { (V W a : ℕ) → V + 2 * W ≤ 255 → AreDifferent V W a }
    ensures only { (V W a : ℕ) → 1 + W + V ≤ a → AreDifferent V W a → V + 2 * W ≤ 255 }
{}

/// Of the pieces in reach, a receiver takes only the expected one.
#[tactic(auto, using(crate::proofs::Reach::takes_only_expected))]
pub fn segment_is_the_expected_one()
    ensures { (V W : ℕ) (inc : Incoming) → 1 ≤ W → V + 2 * W ≤ 255 → TakesOnlyExpected V W inc }
{}

/// A receiver holds a prefix of the pieces, at first and whichever piece in reach arrives.
#[tactic(auto, using(crate::proofs::Reach::keeps_first))]
pub fn parts_are_the_first_pieces()
    ensures start { (own proposed : ℕ) (pieces : List (List ℕ)) → AreFirst pieces (incoming own proposed).parts }
    ensures step { (V W : ℕ) (pieces : List (List ℕ)) (inc : Incoming) → 1 ≤ W → V + 2 * W ≤ 255
        → KeepsFirst V W pieces inc }
{}

/// A sender decodes the number of a SegmentACK in reach correctly, and accepts only one of its window.
#[tactic(auto, using(crate::proofs::Reach::acknowledges_only_window, crate::proofs::Reach::acknowledges_window))]
pub fn segment_ack_is_of_the_window()
    ensures meant { (V W own : ℕ) (out : Outgoing) → V + 2 * W ≤ 255 → out.window ≤ W
        → AcknowledgesOnlyWindow V W own out }
    ensures each { (own : ℕ) (out : Outgoing) → out.window ≤ 256 → AcknowledgesWindow own out }
{}

/// `take_back` undoes every step that took a segment.
#[tactic(auto, using(crate::proofs::Back::is_undone))]
pub fn taking_back_undoes()
    ensures { IsUndone }
{}
