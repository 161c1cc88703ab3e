//! Doors, and the control of access.

/// BACnetDoorValue: what a door is told.
pub(crate) const DOOR_VALUE: &str = "\
door-value
0 lock
1 unlock
2 pulse-unlock
3 extended-pulse-unlock
";

/// BACnetDoorStatus.
pub(crate) const DOOR_STATUS: &str = "\
door-status
0 closed
1 opened
2 unknown
3 door-fault
4 unused
5 none
6 closing
7 opening
8 safety-locked
9 limited-opened
";

/// BACnetDoorAlarmState.
pub(crate) const DOOR_ALARM_STATE: &str = "\
door-alarm-state
0 normal
1 alarm
2 door-open-too-long
3 forced-open
4 tamper
5 door-fault
6 lock-down
7 free-access
8 egress-open
";

/// BACnetDoorSecuredStatus.
pub(crate) const DOOR_SECURED_STATUS: &str = "\
door-secured-status
0 secured
1 unsecured
2 unknown
";

/// BACnetLockStatus.
pub(crate) const LOCK_STATUS: &str = "\
lock-status
0 locked
1 unlocked
2 lock-fault
3 unused
4 unknown
";

/// BACnetAccessEvent.
pub(crate) const ACCESS_EVENT: &str = "\
access-event
0 none
1 granted
2 muster
3 passback-detected
4 duress
5 trace
6 lockout-max-attempts
7 lockout-other
8 lockout-relinquished
9 locked-by-higher-priority
10 out-of-service
11 out-of-service-relinquished
12 accompaniment-by
13 authentication-factor-read
14 authorization-delayed
15 verification-required
16 no-entry-after-granted
128 denied-deny-all
129 denied-unknown-credential
130 denied-authentication-unavailable
131 denied-authentication-factor-timeout
132 denied-incorrect-authentication-factor
133 denied-zone-no-access-rights
134 denied-point-no-access-rights
135 denied-no-access-rights
136 denied-out-of-time-range
137 denied-threat-level
138 denied-passback
139 denied-unexpected-location-usage
140 denied-max-attempts
141 denied-lower-occupancy-limit
142 denied-upper-occupancy-limit
143 denied-authentication-factor-lost
144 denied-authentication-factor-stolen
145 denied-authentication-factor-damaged
146 denied-authentication-factor-destroyed
147 denied-authentication-factor-disabled
148 denied-authentication-factor-error
149 denied-credential-unassigned
150 denied-credential-not-provisioned
151 denied-credential-not-yet-active
152 denied-credential-expired
153 denied-credential-manual-disable
154 denied-credential-lockout
155 denied-credential-max-days
156 denied-credential-max-uses
157 denied-credential-inactivity
158 denied-credential-disabled
159 denied-no-accompaniment
160 denied-incorrect-accompaniment
161 denied-lockout
162 denied-verification-failed
163 denied-verification-timeout
164 denied-other
";

/// BACnetAccessZoneOccupancyState.
pub(crate) const ACCESS_ZONE_OCCUPANCY_STATE: &str = "\
access-zone-occupancy-state
0 normal
1 below-lower-limit
2 at-lower-limit
3 at-upper-limit
4 above-upper-limit
5 disabled
6 not-supported
";

/// BACnetAccessPassbackMode.
pub(crate) const ACCESS_PASSBACK_MODE: &str = "\
access-passback-mode
0 passback-off
1 hard-passback
2 soft-passback
";

/// BACnetAccessUserType.
pub(crate) const ACCESS_USER_TYPE: &str = "\
access-user-type
0 asset
1 group
2 person
";

/// BACnetAccessCredentialDisable.
pub(crate) const ACCESS_CREDENTIAL_DISABLE: &str = "\
access-credential-disable
0 none
1 disable
2 disable-manual
3 disable-lockout
";

/// BACnetAccessCredentialDisableReason.
pub(crate) const ACCESS_CREDENTIAL_DISABLE_REASON: &str = "\
access-credential-disable-reason
0 disabled
1 disabled-needs-provisioning
2 disabled-unassigned
3 disabled-not-yet-active
4 disabled-expired
5 disabled-lockout
6 disabled-max-days
7 disabled-max-uses
8 disabled-inactivity
9 disabled-manual
";

/// BACnetAuthenticationStatus.
pub(crate) const AUTHENTICATION_STATUS: &str = "\
authentication-status
0 not-ready
1 ready
2 disabled
3 waiting-for-authentication-factor
4 waiting-for-accompaniment
5 waiting-for-verification
6 in-progress
";

/// BACnetAuthorizationMode.
pub(crate) const AUTHORIZATION_MODE: &str = "\
authorization-mode
0 authorize
1 grant-active
2 deny-all
3 verification-required
4 authorization-delayed
5 none
";

/// BACnetAuthorizationExemption.
pub(crate) const AUTHORIZATION_EXEMPTION: &str = "\
authorization-exemption
0 passback
1 occupancy-check
2 access-rights
3 lockout
4 deny
5 verification
6 authorization-delay
";
