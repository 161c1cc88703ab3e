//! Lights, lifts and escalators.

/// BACnetBinaryLightingPV.
pub(crate) const BINARY_LIGHTING_PV: &str = "\
binary-lighting-pv
0 off
1 on
2 warn
3 warn-off
4 warn-relinquish
5 stop
";

/// BACnetLightingInProgress.
pub(crate) const LIGHTING_IN_PROGRESS: &str = "\
lighting-in-progress
0 idle
1 fade-active
2 ramp-active
3 not-controlled
4 other
";

/// BACnetLightingTransition.
pub(crate) const LIGHTING_TRANSITION: &str = "\
lighting-transition
0 none
1 fade
2 ramp
";

/// BACnetLiftCarDirection.
pub(crate) const LIFT_CAR_DIRECTION: &str = "\
lift-car-direction
0 unknown
1 none
2 stopped
3 up
4 down
5 up-and-down
";

/// BACnetLiftCarDoorCommand.
pub(crate) const LIFT_CAR_DOOR_COMMAND: &str = "\
lift-car-door-command
0 none
1 open
2 close
";

/// BACnetLiftCarDriveStatus.
pub(crate) const LIFT_CAR_DRIVE_STATUS: &str = "\
lift-car-drive-status
0 unknown
1 stationary
2 braking
3 accelerate
4 decelerate
5 rated-speed
6 single-floor-jump
7 two-floor-jump
8 three-floor-jump
9 multi-floor-jump
";

/// BACnetLiftCarMode.
pub(crate) const LIFT_CAR_MODE: &str = "\
lift-car-mode
0 unknown
1 normal
2 vip
3 homing
4 parking
5 attendant-control
6 firefighter-control
7 emergency-power
8 inspection
9 cabinet-recall
10 earthquake-operation
11 fire-operation
12 out-of-service
13 occupant-evacuation
";

/// BACnetLiftFault.
pub(crate) const LIFT_FAULT: &str = "\
lift-fault
0 controller-fault
1 drive-and-motor-fault
2 governor-and-safety-gear-fault
3 lift-shaft-device-fault
4 power-supply-fault
5 safety-interlock-fault
6 door-closing-fault
7 door-opening-fault
8 car-stopped-outside-landing-zone
9 call-button-stuck
10 start-failure
11 controller-supply-fault
12 self-test-failure
13 runtime-limit-exceeded
14 position-lost
15 drive-temperature-exceeded
16 load-measurement-fault
";

/// BACnetLiftGroupMode.
pub(crate) const LIFT_GROUP_MODE: &str = "\
lift-group-mode
0 unknown
1 normal
2 down-peak
3 two-way
4 four-way
5 emergency-power
6 up-peak
";

/// BACnetEscalatorMode.
pub(crate) const ESCALATOR_MODE: &str = "\
escalator-mode
0 unknown
1 stop
2 up
3 down
4 inspection
5 out-of-service
";

/// BACnetEscalatorOperationDirection.
pub(crate) const ESCALATOR_OPERATION_DIRECTION: &str = "\
escalator-operation-direction
0 unknown
1 stopped
2 up-rated-speed
3 up-reduced-speed
4 down-rated-speed
5 down-reduced-speed
";

/// BACnetEscalatorFault.
pub(crate) const ESCALATOR_FAULT: &str = "\
escalator-fault
0 controller-fault
1 drive-and-motor-fault
2 mechanical-component-fault
3 overspeed-fault
4 power-supply-fault
5 safety-device-fault
6 controller-supply-fault
7 drive-temperature-exceeded
8 comb-plate-fault
";
