//! Small worked examples of the definitions, with numbers that were worked out by hand.
ghost use Rattle.std.specs.Prelude.{◌≡◌, [], ◌∷◌, true, false, Some, None, length, map, replicate};
ghost use Rattle.bac_segment.specs.Numbers.{ahead};
ghost use Rattle.bac_segment.specs.Pieces.{join, piece_at, pieces_of};
ghost use Rattle.bac_segment.specs.Window.{outgoing, in_window, window_pieces, is_finished, acknowledged, again, restart, resume};
ghost use Rattle.bac_segment.specs.Window.{incoming, Taking, takes};

/// 111 octets in pieces of at most 44: 44, 44 and 23.
pub fn cuts()
    ensures lengths { map length (pieces_of 44 (replicate 111 7)) ≡ 44 ∷ 44 ∷ 23 ∷ [] }
    ensures even { pieces_of 2 (1 ∷ 2 ∷ 3 ∷ 4 ∷ []) ≡ (1 ∷ 2 ∷ []) ∷ (3 ∷ 4 ∷ []) ∷ [] }
    ensures one { pieces_of 5 (1 ∷ []) ≡ (1 ∷ []) ∷ [] }
    ensures none { pieces_of 5 [] ≡ [] }
    ensures joined { join ((1 ∷ 2 ∷ []) ∷ [] ∷ (3 ∷ []) ∷ []) ≡ 1 ∷ 2 ∷ 3 ∷ [] }
    ensures at { piece_at (pieces_of 2 (1 ∷ 2 ∷ 3 ∷ [])) 1 ≡ 3 ∷ [] }
{}

/// How far a sequence number is ahead.
pub fn counts_ahead()
    ensures same { ahead 0 256 ≡ 0 }
    ensures next { ahead 1 256 ≡ 1 }
    ensures before { ahead 255 256 ≡ 255 }
    ensures round { ahead 4 510 ≡ 6 }
{}

/// A sender of three pieces: SegmentACKs for piece 0, for pieces before and after the window, and for the last piece.
pub fn sends()
    ensures start { window_pieces (outgoing ((1 ∷ []) ∷ (2 ∷ []) ∷ (3 ∷ []) ∷ [])) ≡ (1 ∷ []) ∷ [] }
    ensures first { acknowledged 32 (outgoing ((1 ∷ []) ∷ (2 ∷ []) ∷ (3 ∷ []) ∷ [])) 0 127
        ≡ Some (record { pieces = (1 ∷ []) ∷ (2 ∷ []) ∷ (3 ∷ []) ∷ []; first = 1; window = 32; retries = 3 }) }
    ensures ahead { acknowledged 32 (outgoing ((1 ∷ []) ∷ (2 ∷ []) ∷ (3 ∷ []) ∷ [])) 1 32 ≡ None }
    ensures before { acknowledged 32 (outgoing ((1 ∷ []) ∷ (2 ∷ []) ∷ (3 ∷ []) ∷ [])) 255 32 ≡ None }
    ensures window { window_pieces (record { pieces = (1 ∷ []) ∷ (2 ∷ []) ∷ (3 ∷ []) ∷ []; first = 1; window = 32; retries = 3 })
        ≡ (2 ∷ []) ∷ (3 ∷ []) ∷ [] }
    ensures last { acknowledged 32 (record { pieces = (1 ∷ []) ∷ (2 ∷ []) ∷ (3 ∷ []) ∷ []; first = 1; window = 32; retries = 0 }) 2 16
        ≡ Some (record { pieces = (1 ∷ []) ∷ (2 ∷ []) ∷ (3 ∷ []) ∷ []; first = 3; window = 16; retries = 3 }) }
    ensures finished { is_finished (record { pieces = (1 ∷ []) ∷ (2 ∷ []) ∷ (3 ∷ []) ∷ []; first = 3; window = 16; retries = 3 }) ≡ true }
    ensures unfinished { is_finished (record { pieces = (1 ∷ []) ∷ (2 ∷ []) ∷ (3 ∷ []) ∷ []; first = 2; window = 16; retries = 3 })
        ≡ false }
{}

/// Retransmissions, and a restarted transfer.
pub fn repeats()
    ensures once { again (outgoing ((1 ∷ []) ∷ [])) ≡ Some (record { pieces = (1 ∷ []) ∷ []; first = 0; window = 1; retries = 2 }) }
    ensures no_more { again (record { pieces = (1 ∷ []) ∷ []; first = 0; window = 1; retries = 0 }) ≡ None }
    ensures restart { restart (record { pieces = (1 ∷ []) ∷ (2 ∷ []) ∷ []; first = 1; window = 9; retries = 0 })
        ≡ record { pieces = (1 ∷ []) ∷ (2 ∷ []) ∷ []; first = 0; window = 1; retries = 3 } }
    ensures resume { resume (record { pieces = (1 ∷ []) ∷ (2 ∷ []) ∷ []; first = 1; window = 9; retries = 0 })
        ≡ record { pieces = (1 ∷ []) ∷ (2 ∷ []) ∷ []; first = 1; window = 9; retries = 3 } }
{}

/// A receiver with window size 2: piece 0 is acknowledged, piece 1 is not, piece 2 fills the window.
pub fn receives()
    ensures actual { incoming 32 64 ≡ record { parts = []; unacknowledged = 0; window = 32 } }
    ensures lesser { incoming 32 2 ≡ record { parts = []; unacknowledged = 0; window = 2 } }
    ensures zero { takes (incoming 32 2) 0 true (7 ∷ [])
        ≡ Taking.Taken true (record { parts = (7 ∷ []) ∷ []; unacknowledged = 0; window = 2 }) }
    ensures one { takes (record { parts = (7 ∷ []) ∷ []; unacknowledged = 0; window = 2 }) 1 true []
        ≡ Taking.Taken false (record { parts = (7 ∷ []) ∷ [] ∷ []; unacknowledged = 1; window = 2 }) }
    ensures two { takes (record { parts = (7 ∷ []) ∷ [] ∷ []; unacknowledged = 1; window = 2 }) 2 true (8 ∷ [])
        ≡ Taking.Taken true (record { parts = (7 ∷ []) ∷ [] ∷ (8 ∷ []) ∷ []; unacknowledged = 0; window = 2 }) }
    ensures last { takes (record { parts = (7 ∷ []) ∷ [] ∷ []; unacknowledged = 1; window = 2 }) 2 false (8 ∷ [])
        ≡ Taking.Whole ((7 ∷ []) ∷ [] ∷ (8 ∷ []) ∷ []) }
    ensures other { takes (record { parts = (7 ∷ []) ∷ [] ∷ []; unacknowledged = 1; window = 2 }) 1 true []
        ≡ Taking.Nak (record { parts = (7 ∷ []) ∷ [] ∷ []; unacknowledged = 0; window = 2 }) }
{}
