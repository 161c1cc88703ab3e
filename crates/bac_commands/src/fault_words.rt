//! Why an ask was refused, in words.
ghost use Rattle.std.specs.Prelude.{◌≡◌};
ghost use Rattle.bac_commands.specs.FaultWords.{ask_fault_words};

use bac_requester::AskFault;

/// Why an ask was refused, in words; its number is `AskFault::number`.
pub fn ask_fault_words(fault: AskFault) -> &'static str
    ensures { result.now ≡ ask_fault_words fault }
{
    match fault {
        AskFault::ClockBack => "the clock went back",
        AskFault::SelfPeer => "the peer is at the node's own link",
        AskFault::TooLong => "the data exceed 65,535 octets",
        AskFault::NeedsSegments => "the peer accepts no segments, or fewer than the request needs",
        AskFault::NoInvokeId => "no invoke ID is free for the peer",
        AskFault::NoSlot => "no slot is free",
        AskFault::NoMemory => "no memory",
    }
}
