//! Laws of the definitions: empty functions whose contracts are one or two laws each.
ghost use Rattle.std.specs.Prelude.{◌≡◌, ◌++◌, ℕ, List, ◌≤◌, length, Some, None, Bool, IsTrue};
ghost use Rattle.std.specs.Cmp.{IsTotalOrder};
ghost use Rattle.std.specs.declared.cmp.Ordering.TheVariants.{Equal};
ghost use Rattle.bac_npdu.specs.Peers.{PeerView, RouteView, peer_cmp, route_fits};
ghost use Rattle.bac_npdu.specs.Npdu.{NpduView, SpellsNpdu, SpellsBvll};
ghost use Rattle.bac_npdu.specs.Datagram.{Carries, frame, frame_head};

/// Octets are a BVLL of at most one NPDU.
pub fn one_bvll_spelling()
    ensures { (m n octets : List ℕ) → SpellsBvll m octets → SpellsBvll n octets → m ≡ n }
{}

/// Octets encode at most one NPDU.
pub fn one_npdu_spelling()
    ensures { (m n : NpduView) (octets : List ℕ) → SpellsNpdu m octets → SpellsNpdu n octets → m ≡ n }
{}

/// A datagram from a link carries the octets of at most one APDU, from one peer.
pub fn one_meaning()
    ensures { (link octets : List ℕ) (p q : PeerView) (a b : List ℕ) → Carries link octets p a → Carries link octets q b → (p ≡ q) × (a ≡ b) }
{}

/// A frame consists of the part that precedes the APDU, and the octets of the APDU.
#[tactic(auto, using(crate::proofs::Writing::frame_headed))]
pub fn frame_is_its_head_and_the_apdu()
    ensures { (p : PeerView) (expecting : Bool) (apdu : List ℕ) → frame p expecting apdu ≡ frame_head p expecting (length apdu) ++ apdu }
{}

/// A frame for a peer without a route carries that APDU, from the sender's link address.
pub fn frame_arrives()
    ensures { (from to : List ℕ) (expecting : Bool) (apdu : List ℕ) → length apdu ≤ 1476
        → Carries from (frame (record { link = to; route = None }) expecting apdu) (record { link = from; route = None }) apdu }
{}

/// A frame for a peer with a route is dropped by the node at its link address, which has to route it.
pub fn routed_frame_means_nothing()
    ensures { (from to : List ℕ) (route : RouteView) (expecting : Bool) (apdu : List ℕ) (p : PeerView) (a : List ℕ) → IsTrue (route_fits route)
        → length apdu ≤ 1476
        → Carries from (frame (record { link = to; route = Some route }) expecting apdu) p a → ⊥ }
{}

/// The order of peers is total, and two peers compare as equal only if they are equal.
pub fn peers_in_order()
    ensures total { IsTotalOrder peer_cmp }
    ensures exact { (p q : PeerView) → peer_cmp p q ≡ Equal → p ≡ q }
{}
