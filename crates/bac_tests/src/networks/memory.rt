//! Run with each allocation refused in turn, too: `sh tests/memory/refused.sh`. Those of nodes and worlds are rows of bac_node_rows.
use super::*;
use bac_simulate::simulate_over;

mod writers;

/// A read that is answered.
const SCRIPT: &str = "nodes 2\nask 0 1 read 0:5 85\ndeliver 0\ndeliver 1\n";

const LINES: &str = "\
asked 0 id 0
sent 0 0>1 810A001101040275000C0C000000051955
performed 0
sent 1 1>0 810A0017010030000C0C0000000519553E444290999A3F
ended 0 answered read 444290999A
";

/// What a script prints.
fn run_script(alloc: Global, script: &str) -> Printed {
    let mut input = script.as_bytes();
    let mut out = Vec::new(alloc);
    let mut err = Vec::new(alloc);
    let status = simulate_over(alloc, &mut input, &mut out, &mut err).code();
    Printed { out, err, status }
}

/// What is printed where memory is refused in an event: what came of those before it, and the event's line.
const STOPPED: &[&str] = &[
    "line 2: fault 4\n",
    "\
asked 0 id 0
sent 0 0>1 810A001101040275000C0C000000051955
line 3: fault 4
",
    "\
asked 0 id 0
sent 0 0>1 810A001101040275000C0C000000051955
performed 0
sent 1 1>0 810A0017010030000C0C0000000519553E444290999A3F
line 4: fault 4
",
];

/// Whether that is printed where an event is the first that memory is refused in.
fn is_stopped(out: &[u8]) -> bool {
    for lines in STOPPED {
        if out == lines.as_bytes() {
            return true;
        }
    }
    false
}

/// Whether a script that ended so printed what it had to.
fn is_told(printed: &Printed) -> bool {
    let out = printed.out.as_slice();
    match printed.status {
        0 => out == LINES.as_bytes() && printed.err.is_empty(),
        1 => is_stopped(out) && printed.err.is_empty(),
        4 => LINES.as_bytes().starts_with(out)
            && printed.err.as_slice() == b"no memory\n".as_slice(),
        _ => false,
    }
}

/// Where memory is refused in an event, it is that event's fault, and what was printed before stays; elsewhere the status tells it.
#[test]
fn scripts_with_refused_memory(rt: HostRuntime) {
    let printed = run_script(rt.alloc(), SCRIPT);
    assert!(rt; is_told(&printed));
}
