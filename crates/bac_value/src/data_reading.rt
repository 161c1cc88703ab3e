//! Reading data, up to their end or an unmatched closing tag (clauses 20.2.1.3.2 and 20.2.19).
ghost use Rattle.std.specs.Prelude.{◌≡◌, ◌<◌, ◌≤◌, ◌+◌, ◌-◌, ◌++◌, length, drop, take, reverse, IfOk, IfErr, IfSome, Err, IsTrue, ℕ, List};
ghost use Rattle.arrayvec.specs.ArrayVec.{array_vec_len};
ghost use Rattle.bac_value.specs.Reading.{turn, Turns, StaysUnlessTurned, ReadsData, Steps, step_at, data_of, fault_place, IsDataTaken, IsDataRefused};
ghost use Rattle.bac_value.specs.Reading.{IsPassed, Onward, IsOver};
ghost use Rattle.bac_value.specs.Data.{IsDataFront};

use crate::data::Data;
use crate::element_reading::take_element;
use crate::fault::{Fault, FaultKind};
use crate::octets::Octets;
use crate::tag::Form;
use arrayvec::ArrayVec;

/// Opens or closes a tag. Returns false if the data end before this tag. A fault changes nothing.
#[tactic(auto, unfolding(crate::specs::Reading::turn))]
fn turn_at(opened: &mut ArrayVec<u8, 8>, form: Form, number: u8) -> Result<bool, FaultKind>
    ensures turned { Turns (reverse opened.new.items) result (turn form number (reverse opened.old.items)) }
    ensures stays { StaysUnlessTurned result opened.old.items opened.new.items }
{
    match form {
        Form::Length(_) | Form::Boolean(_) => Ok(true),
        Form::Opening => {
            if opened.is_full() {
                return Err(FaultKind::TooDeep);
            }
            opened.push(number);
            Ok(true)
        }
        Form::Closing => match opened.as_slice().last().copied() {
            None => Ok(false),
            Some(last) if last == number => {
                opened.pop();
                Ok(true)
            }
            Some(_) => Err(FaultKind::Unbalanced),
        },
    }
}

/// Passes one element and returns what follows it, or None if the data end before it.
#[tactic(auto, unfolding(crate::specs::Reading::step_at))]
fn step<O: Octets>(octets: O, opened: &mut ArrayVec<u8, 8>) -> Result<Option<O>, FaultKind>
    ensures reads { Steps O.octets (reverse opened.new.items) result (step_at (reverse opened.old.items) (O.octets octets)) }
    ensures onward { IfOk result (λ o. IfSome o (λ next. length (O.octets next) < length (O.octets octets))) }
{
    let (element, next) = take_element(octets)?;
    let goes_on = turn_at(opened, element.tag.form, element.tag.number)?;
    if goes_on { Ok(Some(next)) } else { Ok(None) }
}

/// Passes the elements that lie whole within a run of octets. Returns the rest of the run, and whether the data end there.
fn pass_run<'a>(run: &'a [u8], opened: &mut ArrayVec<u8, 8>) -> (&'a [u8], bool)
    ensures passed { IsPassed (reverse opened.old.items) run.now (reverse opened.new.items) result.0.now }
    ensures over { IsTrue result.1 → (behind : List ℕ) → IsOver (reverse opened.new.items) (result.0.now ++ behind) }
{
    let mut rest = run;
    while let Ok((element, next)) = take_element(rest) {
        match turn_at(opened, element.tag.form, element.tag.number) {
            Ok(true) => rest = next,
            Ok(false) => return (rest, true),
            Err(_) => return (rest, false),
        }
    }
    (rest, false)
}

/// Passes elements as long as they lie in one piece. Returns what follows them, and whether the data end there.
fn pass<O: Octets>(octets: O, opened: &mut ArrayVec<u8, 8>) -> (O, bool)
    ensures fewer { length (O.octets result.0) ≤ length (O.octets octets) }
    ensures onward { Onward (reverse opened.old.items) (O.octets octets) (reverse opened.new.items) (O.octets result.0) }
    ensures over { IsTrue result.1 → IsOver (reverse opened.new.items) (O.octets result.0) }
{
    let run = octets.run();
    let (left, is_over) = pass_run(run, opened);
    let (_, rest) = octets.split(run.len() - left.len());
    (rest, is_over)
}

/// Returns what follows the data at the front.
fn data_end<O: Octets>(octets: O) -> Result<O, Fault>
    ensures { ReadsData O.octets (O.octets octets) result (data_of (O.octets octets)) }
{
    let all = octets.len();
    let mut opened: ArrayVec<u8, 8> = ArrayVec::new();
    let (mut rest, mut is_over) = pass(octets, &mut opened);
    while rest.len() > 0 {
        if is_over {
            return Ok(rest);
        }
        match step(rest, &mut opened) {
            Ok(Some(next)) => (rest, is_over) = pass(next, &mut opened),
            Ok(None) => return Ok(rest),
            Err(kind) => {
                return Err(Fault {
                    kind,
                    at: all - rest.len(),
                });
            }
        }
    }
    if opened.is_empty() {
        Ok(rest)
    } else {
        Err(Fault {
            kind: FaultKind::Truncated,
            at: all,
        })
    }
}

/// Reads the data at the front of any octets, up to their end or to a closing tag whose opening tag is not among them.
/// Returns the data and the octets after them.
///
/// The place of a fault is the offset of the faulty element; data that end inside an opened tag are `Truncated` at their end.
pub fn take_data<O: Octets>(octets: O) -> Result<(O, O), Fault>
    ensures found { IfOk result (λ r. IsDataTaken (O.octets octets) (O.octets r.0) (O.octets r.1)) }
    ensures refused { IfErr result (λ e. IsDataRefused (O.octets octets) e) }
{
    let all = octets.len();
    match data_end(octets) {
        Ok(rest) => Ok((octets.front(all - rest.len()), rest)),
        Err(fault) => Err(fault),
    }
}

/// Reads the data at the front, up to the end or to a closing tag whose opening tag is not among them. Returns the data and their
/// length in octets.
///
/// The place of a fault is the offset of the faulty element; data that end inside an opened tag are `Truncated` at their end.
pub fn read_data(octets: &[u8]) -> Result<(Data<'_>, usize), Fault>
    ensures found { IfOk result (λ r. (r.1 ≤ length octets.now) × IsDataFront octets.now r.1 × (r.0.octets.now ≡ take r.1 octets.now)) }
    ensures refused { IfErr result (λ e. (k : ℕ) → IsDataFront octets.now k → ⊥) }
    ensures exact { IfErr result (λ e. (data_of octets.now ≡ Err e.kind) × (e.at ≡ fault_place octets.now)) }
    ensures place { IfErr result (λ e. e.at ≤ length octets.now) }
{
    let (data, _) = take_data(octets)?;
    Ok((Data { octets: data }, data.len()))
}

/// Law: octets have at most one front that is data before an end.
pub fn one_data_front()
    ensures { (bytes : List ℕ) (j k : ℕ) → j ≤ length bytes → k ≤ length bytes → IsDataFront bytes j → IsDataFront bytes k → j ≡ k }
{}
