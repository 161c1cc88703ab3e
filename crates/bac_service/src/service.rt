//! The four services and their choices (clause 21, BACnetConfirmedServiceChoice).
ghost use Rattle.std.specs.Prelude.{◌≡◌};
ghost use Rattle.bac_service.specs.Choices.{choice_number, has_complex_ack, has_simple_ack, is_read_choice, is_read_service, service_at, service_verb};

/// The service choice of AtomicReadFile (clause 21).
pub const ATOMIC_READ_FILE: u8 = 6;

/// The service choice of AtomicWriteFile (clause 21).
pub const ATOMIC_WRITE_FILE: u8 = 7;

/// The service choice of ReadProperty (clause 21).
pub const READ_PROPERTY: u8 = 12;

/// The service choice of WriteProperty (clause 21).
pub const WRITE_PROPERTY: u8 = 15;

/// A service of this stack.
#[derive(Clone, Copy, Debug, PartialEq, Eq)]
pub enum Service {
    AtomicReadFile,
    AtomicWriteFile,
    ReadProperty,
    WriteProperty,
}

impl Service {
    /// The service with this choice; None if this stack does not implement it.
    pub fn of(choice: u8) -> Option<Service>
        ensures { result ≡ service_at choice }
    {
        match choice {
            ATOMIC_READ_FILE => Some(Service::AtomicReadFile),
            ATOMIC_WRITE_FILE => Some(Service::AtomicWriteFile),
            READ_PROPERTY => Some(Service::ReadProperty),
            WRITE_PROPERTY => Some(Service::WriteProperty),
            _ => None,
        }
    }

    /// The service choice of the service.
    pub fn choice(self) -> u8
        ensures { result ≡ choice_number self }
    {
        match self {
            Service::AtomicReadFile => ATOMIC_READ_FILE,
            Service::AtomicWriteFile => ATOMIC_WRITE_FILE,
            Service::ReadProperty => READ_PROPERTY,
            Service::WriteProperty => WRITE_PROPERTY,
        }
    }

    /// Whether a successful request is answered by a SimpleACK: WriteProperty only.
    pub fn has_simple_ack(self) -> bool
        ensures { result ≡ has_simple_ack (choice_number self) }
    {
        matches!(self, Service::WriteProperty)
    }

    /// Whether a successful request is answered by a ComplexACK: all services but WriteProperty.
    pub fn has_complex_ack(self) -> bool
        ensures { result ≡ has_complex_ack (choice_number self) }
    {
        !self.has_simple_ack()
    }

    /// Whether its requests change no store (clauses 14.1 and 15.5).
    #[tactic(auto, using(crate::proofs::Choices::read_choice))]
    pub fn is_read(self) -> bool
        ensures is { result ≡ is_read_service self }
        ensures choice { result ≡ is_read_choice (choice_number self) }
    {
        match self {
            Service::AtomicReadFile | Service::ReadProperty => true,
            Service::AtomicWriteFile | Service::WriteProperty => false,
        }
    }

    /// The first word of its requests, as `bac ask` takes them.
    pub fn verb(self) -> &'static str
        ensures { result.now ≡ service_verb self }
    {
        match self {
            Service::AtomicReadFile => "get",
            Service::AtomicWriteFile => "put",
            Service::ReadProperty => "read",
            Service::WriteProperty => "write",
        }
    }
}

/// Whether requests with this choice change no store (clauses 14.1 and 15.5): the choice of a service that [`Service::is_read`].
pub fn is_read_choice(choice: u8) -> bool
    ensures { result ≡ is_read_choice choice }
{
    choice == READ_PROPERTY || choice == ATOMIC_READ_FILE
}
