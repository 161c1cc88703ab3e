//! The UDP ports of BACnet/IP.
ghost use Rattle.std.specs.Prelude.{◌≡◌};
ghost use Rattle.bac_capture.specs.Ports.{is_port};

/// The first of the sixteen ports of BACnet/IP, BAC0 (the default in clause J.1.2).
pub(crate) const FIRST_PORT: u16 = 0xBAC0;
/// The last of the sixteen ports, BACF.
pub(crate) const LAST_PORT: u16 = 0xBACF;

/// The UDP ports that carry BACnet/IP: 47808 to 47823, and optionally one more.
#[derive(Clone, Copy, Debug)]
pub struct Ports {
    /// A port in addition to the sixteen.
    pub also: Option<u16>,
}

impl Ports {
    /// Whether a port is one of these.
    pub(crate) fn has(self, port: u16) -> bool
        ensures { result ≡ is_port self.also port }
    {
        match self.also {
            Some(also) if also == port => true,
            _ => FIRST_PORT <= port && port <= LAST_PORT,
        }
    }
}
