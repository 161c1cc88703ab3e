//! The bits of bit strings.

/// BACnetStatusFlags.
pub(crate) const STATUS_FLAGS: &str = "\
status-flags
0 in-alarm
1 fault
2 overridden
3 out-of-service
";

/// BACnetEventTransitionBits.
pub(crate) const EVENT_TRANSITION_BITS: &str = "\
event-transition-bits
0 to-offnormal
1 to-fault
2 to-normal
";

/// BACnetLimitEnable.
pub(crate) const LIMIT_ENABLE: &str = "\
limit-enable
0 low-limit-enable
1 high-limit-enable
";

/// BACnetServicesSupported.
pub(crate) const SERVICES_SUPPORTED: &str = "\
services-supported
0 acknowledge-alarm
1 confirmed-cov-notification
2 confirmed-event-notification
3 get-alarm-summary
4 get-enrollment-summary
5 subscribe-cov
6 atomic-read-file
7 atomic-write-file
8 add-list-element
9 remove-list-element
10 create-object
11 delete-object
12 read-property
14 read-property-multiple
15 write-property
16 write-property-multiple
17 device-communication-control
18 confirmed-private-transfer
19 confirmed-text-message
20 reinitialize-device
21 vt-open
22 vt-close
23 vt-data
26 i-am
27 i-have
28 unconfirmed-cov-notification
29 unconfirmed-event-notification
30 unconfirmed-private-transfer
31 unconfirmed-text-message
32 time-synchronization
33 who-has
34 who-is
35 read-range
36 utc-time-synchronization
37 life-safety-operation
38 subscribe-cov-property
39 get-event-information
40 write-group
41 subscribe-cov-property-multiple
42 confirmed-cov-notification-multiple
43 unconfirmed-cov-notification-multiple
44 confirmed-audit-notification
45 audit-log-query
46 unconfirmed-audit-notification
";

/// BACnetPriorityFilter.
pub(crate) const PRIORITY_FILTER: &str = "\
priority-filter
0 manual-life-safety
1 automatic-life-safety
2 priority-3
3 priority-4
4 critical-equipment-controls
5 minimum-on-off
6 priority-7
7 manual-operator
8 priority-9
9 priority-10
10 priority-11
11 priority-12
12 priority-13
13 priority-14
14 priority-15
15 priority-16
";

/// BACnetAuditOperationFlags.
pub(crate) const AUDIT_OPERATION_FLAGS: &str = "\
audit-operation-flags
0 read
1 write
2 create
3 delete
4 life-safety
5 acknowledge-alarm
6 device-disable-comm
7 device-enable-comm
8 device-reset
9 device-backup
10 device-restore
11 subscription
12 notification
13 auditing-failure
14 network-changes
15 general
";
