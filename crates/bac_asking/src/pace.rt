//! Rounds that do not keep their pace.
use std::io::Write;

/// How many milliseconds late the machine may wake a node that rested, without a word.
const WAKING: u64 = 1_000;

/// Whether a round that is so many milliseconds late shows that the pace is not kept: there was no time to rest before it, or the machine woke the node late.
fn is_behind(late: u64, has_rested: bool) -> bool {
    if has_rested { late > WAKING } else { late > 0 }
}

/// Says on `err` how many milliseconds late a round is, by its number, where that shows that the pace is not kept. Answers whether it does.
pub(crate) fn tell_late<E: Write>(round: u64, late: u64, has_rested: bool, err: &mut E) -> bool {
    let is_late = round > 1 && is_behind(late, has_rested);
    if is_late {
        // if that fails too, nothing is printed
        let _ = writeln!(err, "round {round} is {late} ms late");
    }
    is_late
}

/// Says on `err` that a round, by its number, goes on, and how many milliseconds late the next one is already.
pub(crate) fn print_overdue<E: Write>(round: u64, late: u64, err: &mut E) {
    let next = round.saturating_add(1);
    // if that fails too, nothing is printed
    let _ = writeln!(
        err,
        "round {next} is already {late} ms late, and round {round} is not finished"
    );
}
