//! When a port comes again.
ghost use Rattle.std.specs.Prelude.{◌≡◌, ◌⊎◌, ℕ, ◌+◌, ◌≤◌, ◌<◌, List, Some, slice_get};
ghost use Rattle.bac_pairs.specs.Clients.{AreApart, AreInTurn, Client};
ghost use Rattle.bac_pairs.specs.Pairs.{port_at, share_at, share_end};

/// Two moments have one port only if they are of one share, or 165.888 seconds lie between the end of the earlier one's share and the later moment.
pub fn ports_come_late()
    ensures { (key : List ℕ) (one other : ℕ) → one ≤ other → port_at key one ≡ port_at key other
        → (share_at one ≡ share_at other) ⊎ (share_end one + 165888000 ≤ other) }
{}

/// Clients of one host take their ports one after the other, each in a share of its own, and a client asks for at most 30 seconds from the end of its share
/// on. Then a client that gets the port of an earlier one gets it 135.888 seconds after each ask of that one, or later.
pub fn clients_come_late()
    ensures { (key : List ℕ) (clients : List Client) → AreInTurn clients → AreApart key clients }
{}
