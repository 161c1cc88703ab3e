//! The states and settings of many objects.

/// BACnetBinaryPV: the two states of a binary object.
pub(crate) const BINARY_PV: &str = "\
binary-pv
0 inactive
1 active
";

/// BACnetPolarity: whether a binary input or output is inverted.
pub(crate) const POLARITY: &str = "\
polarity
0 normal
1 reverse
";

/// BACnetEventState.
pub(crate) const EVENT_STATE: &str = "\
event-state
0 normal
1 fault
2 offnormal
3 high-limit
4 low-limit
5 life-safety-alarm
";

/// BACnetReliability.
pub(crate) const RELIABILITY: &str = "\
reliability
0 no-fault-detected
1 no-sensor
2 over-range
3 under-range
4 open-loop
5 shorted-loop
6 no-output
7 unreliable-other
8 process-error
9 multi-state-fault
10 configuration-error
12 communication-failure
13 member-fault
14 monitored-object-fault
15 tripped
16 lamp-failure
17 activation-failure
18 renew-dhcp-failure
19 renew-fd-registration-failure
20 restart-auto-negotiation-failure
21 restart-failure
22 proprietary-command-failure
23 faults-listed
24 referenced-object-fault
25 multi-state-out-of-range
";

/// BACnetAction: the direction of a control loop.
pub(crate) const ACTION: &str = "\
action
0 direct
1 reverse
";

/// BACnetMaintenance.
pub(crate) const MAINTENANCE: &str = "\
maintenance
0 none
1 periodic-test
2 need-service-operational
3 need-service-inoperative
";

/// BACnetShedState: the state of a load control.
pub(crate) const SHED_STATE: &str = "\
shed-state
0 shed-inactive
1 shed-request-pending
2 shed-compliant
3 shed-non-compliant
";

/// BACnetTimerState.
pub(crate) const TIMER_STATE: &str = "\
timer-state
0 idle
1 running
2 expired
";

/// BACnetTimerTransition.
pub(crate) const TIMER_TRANSITION: &str = "\
timer-transition
0 none
1 idle-to-running
2 running-to-idle
3 running-to-running
4 running-to-expired
5 forced-to-expired
6 expired-to-idle
7 expired-to-running
";

/// BACnetWriteStatus: the state of a write of a channel.
pub(crate) const WRITE_STATUS: &str = "\
write-status
0 idle
1 in-progress
2 successful
3 failed
";

/// BACnetNodeType: what a structured view stands for.
pub(crate) const NODE_TYPE: &str = "\
node-type
0 unknown
1 system
2 network
3 device
4 organizational
5 area
6 equipment
7 point
8 collection
9 property
10 functional
11 other
12 subsystem
13 building
14 floor
15 section
16 module
17 tree
18 member
19 protocol
20 room
21 zone
";

/// BACnetRelationship: how a subordinate belongs to a structured view.
pub(crate) const RELATIONSHIP: &str = "\
relationship
0 unknown
1 default
2 contains
3 contained-by
4 uses
5 used-by
6 commands
7 commanded-by
8 adjusts
9 adjusted-by
10 ingress
11 egress
12 supplies-air
13 receives-air
14 supplies-hot-air
15 receives-hot-air
16 supplies-cool-air
17 receives-cool-air
18 supplies-power
19 receives-power
20 supplies-gas
21 receives-gas
22 supplies-water
23 receives-water
24 supplies-hot-water
25 receives-hot-water
26 supplies-cool-water
27 receives-cool-water
28 supplies-steam
29 receives-steam
";
