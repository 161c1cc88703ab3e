//! Clients of hosts that start one after another at ports that come again.

ghost use Rattle.bac_plant.specs.Clients.{BootsGoOn, DaysAreLong, DeedsAreCalls, DeedsAreRight, DeedsAreSteps, PausesAreShort, QuietIsKnown};

/// A time of day is not set back, and gains at most 0.8 seconds in 166 seconds. While 165.888 seconds pass by it, 165.088 seconds pass at least. All is over by
/// then that a client sent which began asks until 30,000 ms after its share of time, by its own clock, whatever the pace of clocks is.
pub fn days_are_long()
    ensures days { DaysAreLong }
    ensures pauses { PausesAreShort }
{}

/// Clients of hosts start one after another, each at the port that the time of day gave it, as `bac` does: those that had the port before took it in earlier
/// shares of time. Each begins asks until 30,000 ms after its share, by its own clock. Then all is over that was sent from that port before, whoever was asked, and
/// whatever the other stations do meanwhile. So another program may start there, and what they all do is calls as `calls_compose` and
/// `calls_compose_with_other_settings` take them. They may begin in any plant in which each port is quiet, or was asked from last by a client that is known.
pub fn clients_find_quiet()
    ensures quiet { QuietIsKnown }
    ensures calls { DeedsAreCalls }
    ensures steps { DeedsAreSteps }
{}

/// So the headline holds of what such clients ask, also among stations that start again with other settings: each accepted ask is performed at most once, and
/// exactly once if it ended with a service answer. More such clients may go on after them.
pub fn clients_are_right()
    ensures { DeedsAreRight }
{}

/// A host may boot, which changes its key, once its own ports are quiet. Clients of the other hosts go on.
pub fn boots_go_on()
    ensures { BootsGoOn }
{}
