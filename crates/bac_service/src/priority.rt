//! Write priorities (clause 19.2).
ghost use Rattle.std.specs.Prelude.{◌≡◌, ◌<◌, ◌≤◌, ◌↔◌, IsSome, IfSome, MatchOption, true, false};
ghost use Rattle.bac_value.specs.Steps.{Reads};
ghost use Rattle.bac_service.specs.Priorities.{is_priority, priority_at};

use crate::member_reading::unsigned;
use crate::stop::{Stop, Why};
use bac_value::{Class, Octets};

/// A write priority, 1 (highest) to 16 (lowest) (clause 19.2).
#[derive(Clone, Copy, Debug, PartialEq, Eq)]
pub struct Priority {
    /// 1 (highest) to 16 (lowest).
    pub number: u8,
    pub ghost least: { 0 < number },
    pub ghost most: { number ≤ 16 },
}

impl Priority {
    /// The priority; None exactly if the number is not 1 to 16.
    pub fn new(number: u8) -> Option<Priority>
        ensures some { IsSome result ↔ (0 < number) × (number ≤ 16) }
        ensures same { IfSome result (λ p. p.number ≡ number) }
    {
        if number > 0 && number <= 16 {
            Some(Priority { number })
        } else {
            None
        }
    }
}

fn in_range(number: u64) -> Option<Priority>
    ensures { MatchOption result (is_priority number ≡ false) (λ p. (is_priority number ≡ true) × (p.number ≡ number)) }
{
    if number > 0 && number <= 16 {
        Some(Priority {
            number: number as u8,
        })
    } else {
        None
    }
}

/// The number of the priority, 1 to 16.
#[tactic(auto, unfolding(crate::specs::Priorities::priority_at, crate::specs::Reading::that_at))]
pub(crate) fn take_priority<O: Octets>(octets: O) -> Result<(Priority, O), Stop>
    ensures { Reads (λ p. p.number) O.octets (O.octets octets) result priority_at }
{
    let left = octets.len();
    let (number, rest) = unsigned(octets, Class::Context, 4)?;
    match in_range(number) {
        Some(priority) => Ok((priority, rest)),
        None => Err(Stop::new(Why::OutOfRange, left)),
    }
}
