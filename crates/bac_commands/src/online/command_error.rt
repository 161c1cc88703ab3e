//! Why a command stopped.
ghost use Rattle.std.specs.Prelude.{◌≡◌};
ghost use Rattle.bac_text.specs.Statuses.{IsFailure};
ghost use Rattle.bac_text.specs.declared.status.Status.TheVariants as status;
ghost use Rattle.bac_commands.specs.CommandErrors.{IsPrintedBy, trouble_of, trouble_of_round};
ghost use Rattle.bac_commands.specs.declared.online.command_error.CommandError.TheVariants as command_error;

use bac_driver::{KeepFault, RoundFault, TurnFault};
use bac_npdu::LinkAddress;
use bac_text::{Status, complain, no_memory, output_failed};
use bac_value::NoMemory;
use std::io;
use std::io::Write;

/// Why a command stopped before its end.
#[derive(Debug, Drop)]
pub enum CommandError {
    /// The link can't be made, or can't receive.
    Link,
    /// The clock goes back.
    Clock,
    /// What was written could not be kept, for that reason.
    Keep(KeepFault),
    /// Memory was refused.
    Memory,
    /// What is printed could not be written.
    Output(io::Error),
}

/// Complains of a link that can't be made, or can't receive. The status is that of all that is outside of the program.
pub fn link_fault<E: Write>(err: &mut E) -> Status
    ensures { result ≡ status.Output }
{
    complain(err, "link fault", Status::Output)
}

/// Complains of the clock, and says why. The status is that of all that is outside of the program.
fn print_clock_fault<E: Write>(why: &str, err: &mut E) -> Status
    ensures { result ≡ status.Output }
{
    let status = complain(err, "clock fault", Status::Output);
    // if that fails too, only the status is left
    let _ = err.writeln(why);
    status
}

/// Complains of a clock that can't be read. The status is that of all that is outside of the program.
pub fn clock_unread<E: Write>(err: &mut E) -> Status
    ensures { result ≡ status.Output }
{
    print_clock_fault("the machine's clock cannot be read", err)
}

/// Complains of a clock that goes back. The status is that of all that is outside of the program.
pub fn clock_back<E: Write>(err: &mut E) -> Status
    ensures { result ≡ status.Output }
{
    print_clock_fault("the machine's clock went back", err)
}

/// Complains that what was written could not be kept. The status is that of all that is outside of the program.
pub fn keep_fault<E: Write>(err: &mut E) -> Status
    ensures { result ≡ status.Output }
{
    complain(err, "keep fault", Status::Output)
}

impl CommandError {
    /// Why what was written could not be kept, where that is so.
    pub fn keep_fault(&self) -> Option<KeepFault> {
        match self {
            CommandError::Keep(why) => Some(*why),
            _ => None,
        }
    }

    /// Complains of it.
    pub fn report<E: Write>(self, err: &mut E) -> Status
        ensures told { IsPrintedBy self result }
        ensures failed { IsFailure result }
    {
        match self {
            CommandError::Link => link_fault(err),
            CommandError::Clock => clock_back(err),
            CommandError::Keep(_) => keep_fault(err),
            CommandError::Memory => no_memory(err),
            CommandError::Output(error) => output_failed(err, &error),
        }
    }

    /// Complains of it as `report` does; of a link that can't receive, with its address.
    pub fn report_at<E: Write>(self, own: LinkAddress, err: &mut E) -> Status
        ensures told { IsPrintedBy self result }
        ensures failed { IsFailure result }
    {
        match self {
            CommandError::Link => {
                let status = link_fault(err);
                print_deaf(own, err);
                status
            }
            other => other.report(err),
        }
    }
}

/// Tells which link can't receive.
fn print_deaf<E: Write>(own: LinkAddress, err: &mut E) {
    let [a, b, c, d, high, low] = own;
    let port = u16::from_be_bytes([high, low]);
    // if that fails too, only the status is left
    let _ = writeln!(err, "{a}.{b}.{c}.{d}:{port}: cannot receive");
}

impl From<TurnFault> for CommandError {
    ghost from_gives = { λ f t. t ≡ trouble_of f };

    fn from(fault: TurnFault) -> CommandError {
        match fault {
            TurnFault::Link => CommandError::Link,
            TurnFault::ClockBack => CommandError::Clock,
        }
    }
}

impl From<RoundFault> for CommandError {
    ghost from_gives = { λ f t. t ≡ trouble_of_round f };

    fn from(fault: RoundFault) -> CommandError {
        match fault {
            RoundFault::Link => CommandError::Link,
            RoundFault::ClockBack => CommandError::Clock,
            RoundFault::Keep(why) => CommandError::Keep(why),
        }
    }
}

impl From<NoMemory> for CommandError {
    ghost from_gives = { λ _ t. t ≡ command_error.Memory };

    fn from(_error: NoMemory) -> CommandError {
        CommandError::Memory
    }
}

impl From<io::Error> for CommandError {
    ghost from_gives = { λ e t. t ≡ command_error.Output e };

    fn from(error: io::Error) -> CommandError {
        CommandError::Output(error)
    }
}
