//! What is wrong with a datagram, and with a line of a capture.
ghost use Rattle.std.specs.Prelude.{◌≡◌, false, Some};
ghost use Rattle.bac_text.specs.Faults.{layer_number, layer_name, fault_text};
ghost use Rattle.bac_text.specs.Texts.{line_fault_text};

use bac_apdu::ApduFault;
use bac_npdu::FrameFault;
use bac_service::Reject;
use bac_value::FaultKind;
use std::fmt;

/// Which layer of a datagram is at fault, from the outside in, and how.
#[derive(Clone, Copy, Debug, PartialEq, Eq)]
pub enum LayerFault {
    /// The datagram is no BVLL.
    Bvll(FrameFault),
    /// It is one, of octets that are no NPDU.
    Npdu(FrameFault),
    /// The NPDU's contents are no APDU.
    Apdu(ApduFault),
    /// The APDU is a request of one of the four services, and its service data are none such.
    Request(Reject),
    /// The APDU is a ComplexACK of one of the services, and its service data are none such.
    ComplexAck(FaultKind),
}

impl LayerFault {
    /// The name of the layer, as it is printed.
    pub fn name(self) -> &'static str
        ensures { result.now ≡ layer_name self }
    {
        match self {
            LayerFault::Bvll(_) => "bvll",
            LayerFault::Npdu(_) => "npdu",
            LayerFault::Apdu(_) => "apdu",
            LayerFault::Request(_) => "reject",
            LayerFault::ComplexAck(_) => "data",
        }
    }

    /// The number of the fault in its layer: 1 to 8, and for a request the reason of its Reject, 0 to 9.
    pub fn number(self) -> u8
        ensures { result ≡ layer_number self }
    {
        match self {
            LayerFault::Bvll(fault) | LayerFault::Npdu(fault) => fault.number(),
            LayerFault::Apdu(fault) => fault.number(),
            LayerFault::Request(reject) => reject.reason(),
            LayerFault::ComplexAck(kind) => kind.number(),
        }
    }
}

impl fmt::Display for LayerFault {
    ghost output = { λ x. Some (fault_text x) };

    fn fmt<W: fmt::Write>(&self, f: &mut fmt::Formatter<W>) -> fmt::Result {
        let name = self.name();
        let number = self.number();
        write!(f, "fault {name} {number}")
    }
}

/// What is wrong with a line of a capture: the first of these that holds.
#[derive(Clone, Copy, Debug, PartialEq, Eq)]
pub enum LineFault {
    /// It is of another form.
    NoCaptureLine,
    /// Its moment is less than that of an earlier line.
    MomentGoesBack,
    /// Its datagram has that fault; its BVLL has that function, if it is there.
    Datagram {
        fault: LayerFault,
        function: Option<u8>,
    },
}

/// What a line of a capture is.
#[derive(Clone, Copy, Debug, PartialEq, Eq)]
pub enum LineVerdict {
    /// A capture line without a fault.
    Good,
    /// A note, passed over.
    Note,
    /// A line with that fault.
    Bad(LineFault),
}

impl fmt::Display for LineFault {
    ghost output = { λ x. Some (line_fault_text false x) };

    fn fmt<W: fmt::Write>(&self, f: &mut fmt::Formatter<W>) -> fmt::Result {
        match self {
            LineFault::NoCaptureLine => write!(f, "not a capture line"),
            LineFault::MomentGoesBack => write!(f, "moment goes back"),
            LineFault::Datagram { fault, .. } => write!(f, "{fault}"),
        }
    }
}
