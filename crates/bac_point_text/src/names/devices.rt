//! Devices, programs, files and network ports.

/// BACnetDeviceStatus.
pub(crate) const DEVICE_STATUS: &str = "\
device-status
0 operational
1 operational-read-only
2 download-required
3 download-in-progress
4 non-operational
5 backup-in-progress
";

/// BACnetSegmentation.
pub(crate) const SEGMENTATION: &str = "\
segmentation
0 segmented-both
1 segmented-transmit
2 segmented-receive
3 no-segmentation
";

/// BACnetBackupState.
pub(crate) const BACKUP_STATE: &str = "\
backup-state
0 idle
1 preparing-for-backup
2 preparing-for-restore
3 performing-a-backup
4 performing-a-restore
5 backup-failure
6 restore-failure
";

/// BACnetRestartReason.
pub(crate) const RESTART_REASON: &str = "\
restart-reason
0 unknown
1 coldstart
2 warmstart
3 detected-power-lost
4 detected-powered-off
5 hardware-watchdog
6 software-watchdog
7 suspended
8 activate-changes
";

/// BACnetFileAccessMethod.
pub(crate) const FILE_ACCESS_METHOD: &str = "\
file-access-method
0 record-access
1 stream-access
";

/// BACnetProgramState.
pub(crate) const PROGRAM_STATE: &str = "\
program-state
0 idle
1 loading
2 running
3 waiting
4 halted
5 unloading
";

/// BACnetProgramRequest.
pub(crate) const PROGRAM_REQUEST: &str = "\
program-request
0 ready
1 load
2 run
3 halt
4 restart
5 unload
";

/// BACnetProgramError: why a program halted.
pub(crate) const PROGRAM_ERROR: &str = "\
program-error
0 normal
1 load-failed
2 internal
3 program
4 other
";

/// BACnetNetworkType.
pub(crate) const NETWORK_TYPE: &str = "\
network-type
0 ethernet
1 arcnet
2 mstp
3 ptp
4 lontalk
5 ipv4
6 zigbee
7 virtual
8 non-bacnet
9 ipv6
10 serial
11 secure-connect
";

/// BACnetNetworkNumberQuality.
pub(crate) const NETWORK_NUMBER_QUALITY: &str = "\
network-number-quality
0 unknown
1 learned
2 learned-configured
3 configured
";

/// BACnetNetworkPortCommand.
pub(crate) const NETWORK_PORT_COMMAND: &str = "\
network-port-command
0 idle
1 discard-changes
2 renew-fd-registration
3 restart-slave-discovery
4 renew-dhcp
5 restart-autonegotiation
6 disconnect
7 restart-port
8 generate-csr-file
9 validate-changes
";

/// BACnetIPMode.
pub(crate) const IP_MODE: &str = "\
ip-mode
0 normal
1 foreign
2 bbmd
";

/// BACnetProtocolLevel.
pub(crate) const PROTOCOL_LEVEL: &str = "\
protocol-level
0 physical
1 protocol
2 bacnet-application
3 non-bacnet-application
";
