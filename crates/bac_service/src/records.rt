//! Records of a file: a sequence of octet strings, each with its application tag.
ghost use Rattle.std.specs.Prelude.{◌≡◌, ◌<◌, ◌+◌, ◌-◌, ◌↔◌, ℕ, IsSome, IfOk, IfSome, MatchOption, Some, None, length, suc};
ghost use Rattle.bac_value.specs.Steps.{Reads};
ghost use Rattle.bac_service.specs.Runs.{AreStrings, IsCount, StringStep, run_at, strings_at};

use crate::member_reading::string;
use crate::stop::Stop;
use crate::tag_reading::{announced_by, tag};
use bac_value::{Class, Octets, kinds};

/// Borrowed records of a file: octet strings, each encoded with its application tag, one after the other.
#[derive(Clone, Copy, Debug)]
pub struct Records<'a> {
    /// The octet strings, each with its tag, one after the other.
    pub run: &'a [u8],
    /// How many octet strings there are.
    pub count: u64,
    pub ghost counted: { ∥ AreStrings count run.now ∥₁ },
}

/// Counts the octet strings with application tags that the octets consist of; None if the octets are anything else.
fn strings_in(run: &[u8]) -> Option<u64>
    ensures { MatchOption result ((n : ℕ) → AreStrings n run.now → ⊥) (λ count. IsCount run.now count) }
{
    // there are no more strings than octets, so the count fits
    let _all = Octets::len(run);
    let mut count: u64 = 0;
    let mut rest = run;
    while !rest.is_empty() {
        match string(rest) {
            Ok((_, next)) => rest = next,
            Err(_) => return None,
        }
        count += 1;
    }
    Some(count)
}

impl<'a> Records<'a> {
    /// Records; None exactly if the octets are not this many octet strings with application tags.
    pub fn new(run: &'a [u8], count: u64) -> Option<Records<'a>>
        ensures some { IsSome result ↔ ∥ AreStrings count run.entry.now ∥₁ }
        ensures same { IfSome result (λ r. (r.run.now ≡ run.entry.now) × (r.count ≡ count)) }
    {
        match strings_in(run) {
            Some(strings) if strings == count => Some(Records { run, count }),
            _ => None,
        }
    }
}

/// Octet strings one after the other, and how many there are.
#[derive(Clone, Copy)]
pub(crate) struct Run<O> {
    pub octets: O,
    pub count: u64,
}

/// Passes the next octet string and returns the octets after it, or None if no octet string comes next.
fn next_string<O: Octets>(octets: O) -> Result<Option<O>, Stop>
    ensures step { StringStep O.octets (O.octets octets) result }
    ensures onward { IfOk result (λ o. IfSome o (λ rest. length (O.octets rest) < length (O.octets octets))) }
{
    let (tag, _) = tag(octets)?;
    if announced_by(tag, Class::Application, kinds::OCTET_STRING).is_none() {
        return Ok(None);
    }
    let (_, rest) = string(octets)?;
    Ok(Some(rest))
}

/// Counts the octet strings at the front, and returns the count and the octets after them.
fn strings<O: Octets>(octets: O) -> Result<(u64, O), Stop>
    ensures { Reads (λ n. n) O.octets (O.octets octets) result (λ bytes. strings_at (suc (length bytes)) bytes) }
{
    // there are no more strings than octets, so the count fits
    let _all = octets.len();
    let mut count: u64 = 0;
    let mut rest = octets;
    while let Some(next) = next_string(rest)? {
        count += 1;
        rest = next;
    }
    Ok((count, rest))
}

/// Reads the octet strings at the front, and returns their count, their octets and the octets after them.
#[tactic(auto, unfolding(crate::specs::Runs::run_at))]
pub(crate) fn take_run<O: Octets>(octets: O) -> Result<((u64, O), O), Stop>
    ensures { Reads (λ t. (t.0, O.octets t.1)) O.octets (O.octets octets) result run_at }
{
    let all = octets.len();
    let (count, rest) = strings(octets)?;
    let run = octets.front(all - rest.len());
    Ok(((count, run), rest))
}
