//! Life safety.

/// BACnetLifeSafetyState.
pub(crate) const LIFE_SAFETY_STATE: &str = "\
life-safety-state
0 quiet
1 pre-alarm
2 alarm
3 fault
4 fault-pre-alarm
5 fault-alarm
6 not-ready
7 active
8 tamper
9 test-alarm
10 test-active
11 test-fault
12 test-fault-alarm
13 holdup
14 duress
15 tamper-alarm
16 abnormal
17 emergency-power
18 delayed
19 blocked
20 local-alarm
21 general-alarm
22 supervisory
23 test-supervisory
24 non-default-mode
25 oeo-unavailable
26 oeo-alarm
27 oeo-phase1-recall
28 oeo-evacuate
29 oeo-unaffected
30 test-oeo-unavailable
31 test-oeo-alarm
32 test-oeo-phase1-recall
33 test-oeo-evacuate
34 test-oeo-unaffected
";

/// BACnetLifeSafetyMode.
pub(crate) const LIFE_SAFETY_MODE: &str = "\
life-safety-mode
0 off
1 on
2 test
3 manned
4 unmanned
5 armed
6 disarmed
7 prearmed
8 slow
9 fast
10 disconnected
11 enabled
12 disabled
13 automatic-release-disabled
14 default
15 activated-oeo-alarm
16 activated-oeo-evacuate
17 activated-oeo-phase1-recall
18 activated-oeo-unavailable
19 deactivated
";

/// BACnetLifeSafetyOperation.
pub(crate) const LIFE_SAFETY_OPERATION: &str = "\
life-safety-operation
0 none
1 silence
2 silence-audible
3 silence-visual
4 reset
5 reset-alarm
6 reset-fault
7 unsilence
8 unsilence-audible
9 unsilence-visual
";

/// BACnetSilencedState.
pub(crate) const SILENCED_STATE: &str = "\
silenced-state
0 unsilenced
1 audible-silenced
2 visible-silenced
3 all-silenced
";
