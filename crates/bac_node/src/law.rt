//! Laws of all nodes, for callers that need them in a proof. They do nothing when they run.
ghost use Rattle.bac_node.specs.Capacities.{CapacitiesStay};
ghost use Rattle.bac_node.specs.Serving.{FreshIsReusing, GivenAreSet, HearsAsInWorlds, StrictIsOn};

/// No call changes how many slots the tables of a node have: they are those of its [`Config`](crate::Config).
#[tactic(auto, using(crate::proofs::Capacities::capacities_stay))]
pub fn capacities_stay()
    ensures { CapacitiesStay }
{}

/// [`Node::hear`](crate::Node::hear) with the strict rules does what [`Node::on`](crate::Node::on) does. With fresh reads, and each request remembered for as long as
/// its entry lives, it lets clients use an invoke ID again. Both are the nodes of worlds, whatever their bound on memory is, and both are what
/// [`Rules::of`](bac_transaction::Rules::of) gives.
#[tactic(auto, using(crate::proofs::Rules::given_are_set))]
pub fn hears_by_rules()
    ensures strict { StrictIsOn }
    ensures fresh { FreshIsReusing }
    ensures worlds { HearsAsInWorlds }
    ensures given { GivenAreSet }
{}
