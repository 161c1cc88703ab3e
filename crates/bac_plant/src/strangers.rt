//! What servers perform of the writes of strangers, of either setting: a law.
//!
//! The definitions are in `specs/Writes`, and `examples` has runs that are computed. The functions here have no body: each carries a law as its contract.
ghost use Rattle.bac_plant.specs.Writes.{WritesActOnce};

/// What a server does once it has performed a stranger's request that is no read: it performs nothing more for that stranger under that invoke ID.
/// That holds while the entry of it lives, however often copies of that request come. It lives up to 65,000 ms after it began, by the server's clock.
/// This ends where the server restarts, or another request of that stranger comes under that invoke ID. Of a request in one APDU the entry begins
/// with that APDU. This holds of every server, also of one that lets clients use an invoke ID again, whatever all others do. It does nothing.
pub fn strangers_writes_act_once()
    ensures { WritesActOnce }
{}
