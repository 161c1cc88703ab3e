//! Runs of turns.
use crate::printing::{print_done, print_end, print_fault};
use crate::side::{MemoryNode, Side, question};
use crate::turns::wait_limit_of;
use bac_driver::{RunLimit, WaitLimit, pair};
use bac_rows::row::{Row, after, number};

/// `serve TURNS WAIT UNTIL`: the server serves.
pub(crate) fn serve(side: &mut Side<'_>, words: &str, row: &mut Row) {
    let limit = RunLimit {
        turns: number(words, 0),
        wait_limit: wait_limit_of(after(words, 1)),
    };
    let mut clock = side.clock();
    match side.server.serve(&mut clock, &limit) {
        Ok(effects) => row.line(format_args!("served {effects}")),
        Err(fault) => print_fault(fault, row),
    }
}

/// `ask TURNS REQUEST`: the client asks alone, and waits until something is due.
pub(crate) fn ask(side: &mut Side<'_>, words: &str, row: &mut Row) {
    let limit = RunLimit {
        turns: number(words, 0),
        wait_limit: WaitLimit::until_due(),
    };
    let mut clock = side.clock();
    if let Some(question) = question(after(words, 1), row) {
        let end = side.client.ask(&mut clock, &question, &limit);
        drop(question);
        print_end(end, row);
    }
}

/// `pair TURNS REQUEST`: the client asks, and both take turns.
pub(crate) fn ask_in_pair(side: &mut Side<'_>, words: &str, row: &mut Row) {
    let turns = number(words, 0);
    let mut clock = side.clock();
    if let Some(question) = question(after(words, 1), row) {
        let end = pair(
            &mut side.client,
            &mut side.server,
            &mut clock,
            &question,
            turns,
        );
        drop(question);
        print_end(end, row);
    }
}

fn turn_of(node: &mut MemoryNode<'_>, now: u64, row: &mut Row) {
    match node.turn(now) {
        Ok(turn) => {
            print_done(&turn, row);
            drop(turn);
        }
        Err(fault) => print_fault(fault, row),
    }
}

/// `rounds COUNT`: so many turns of the client, and of the server after each.
pub(crate) fn rounds(side: &mut Side<'_>, count: u64, row: &mut Row) {
    for _ in 0..count {
        let now = side.moment();
        turn_of(&mut side.client, now, row);
        let now = side.moment();
        turn_of(&mut side.server, now, row);
    }
}
