//! Numbers in slices.
ghost use Rattle.std.specs.Prelude.{◌≡◌, ◌-◌, ◌<◌, length, map};
ghost use Rattle.std.specs.List.{insert, remove};
ghost use Rattle.bac_slots.specs.Indexes.{lowered};

/// Removes the number at one place, and inserts another one so that it is at another place.
pub(crate) fn exchange(numbers: &mut [u32], from: usize, to: usize, number: u32)
    requires from { from < length numbers.old }
    requires to { to < length numbers.old }
    ensures { numbers.new ≡ insert (remove numbers.old from) to number }
{
    if from < to {
        numbers.copy_within(from + 1..to + 1, from);
    } else {
        numbers.copy_within(to..from, to + 1);
    }
    numbers[to] = number;
}

/// Makes each number the place itself; places greater than `gone` become one less.
pub(crate) fn settle(numbers: &mut [u32], first: u32, gone: usize)
    ensures { numbers.new ≡ map (λ n. lowered gone (n - first)) numbers.old }
{
    for number in numbers.iter_mut() {
        *number = settled(*number, first, gone);
    }
}

fn settled(number: u32, first: u32, gone: usize) -> u32
    ensures { result ≡ lowered gone (number - first) }
{
    let place = number.saturating_sub(first);
    if gone < place as usize {
        place - 1
    } else {
        place
    }
}

/// How many numbers are compared at a time.
const CHUNK: usize = 16;

/// Whether a number is one of these. All of them are compared, so that a processor can compare many at once.
fn is_among(numbers: &[u32; CHUNK], number: u32) -> bool {
    let mut is_there = false;
    for other in numbers {
        is_there |= *other == number;
    }
    is_there
}

/// Where a number is first, or None where it is not.
pub(crate) fn position(numbers: &[u32], number: u32) -> Option<usize> {
    let (chunks, _) = numbers.as_chunks::<CHUNK>();
    let chunk = chunks.iter().position(|chunk| is_among(chunk, number));
    let first = chunk.unwrap_or(chunks.len()).saturating_mul(CHUNK);
    let at = numbers
        .get(first..)?
        .iter()
        .position(|other| *other == number)?;
    Some(first.saturating_add(at))
}
