//! Events and logs.

/// BACnetEventType.
pub(crate) const EVENT_TYPE: &str = "\
event-type
0 change-of-bitstring
1 change-of-state
2 change-of-value
3 command-failure
4 floating-limit
5 out-of-range
6 complex-event-type
8 change-of-life-safety
9 extended
10 buffer-ready
11 unsigned-range
13 access-event
14 double-out-of-range
15 signed-out-of-range
16 unsigned-out-of-range
17 change-of-characterstring
18 change-of-status-flags
19 change-of-reliability
20 none
21 change-of-discrete-value
22 change-of-timer
";

/// BACnetFaultType.
pub(crate) const FAULT_TYPE: &str = "\
fault-type
0 none
1 fault-characterstring
2 fault-extended
3 fault-life-safety
4 fault-state
5 fault-status-flags
6 fault-out-of-range
7 fault-listed
";

/// BACnetNotifyType.
pub(crate) const NOTIFY_TYPE: &str = "\
notify-type
0 alarm
1 event
2 ack-notification
";

/// BACnetLoggingType.
pub(crate) const LOGGING_TYPE: &str = "\
logging-type
0 polled
1 cov
2 triggered
";

/// BACnetAuditLevel.
pub(crate) const AUDIT_LEVEL: &str = "\
audit-level
0 none
1 audit-all
2 audit-config
3 default
";
