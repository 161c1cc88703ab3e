//! What a command line asks for.
use bac_asking::{Asking, asking_of, default_of, peer_of};
use bac_files::{FileTask, FileWork, file_task_of, file_work_of, work_of};
use bac_keep_file::Loss;
use bac_npdu::Peer;
use bac_points::{PointTask, point_task_of};
use bac_reading::{CaptureFile, Decoding, Report, ScriptFile, check_of, decoding_of, report_of};
use bac_serving::{Forgetting, ListForm, Serving, serving_of};
use bac_simulate::View;
use bac_system::Machine;
use bac_words::{Shell, Telling};
use clap::ArgMatches;

/// What a command line asks for.
pub(crate) enum Task<'m, 'a> {
    /// The datagrams that answer this one, by the house or the objects in this file.
    Answer {
        datagram: &'a str,
        objects: Option<&'a str>,
    },
    /// The layers of this datagram, or of those on standard input.
    Decode {
        decoding: Decoding,
        datagrams: &'a str,
    },
    /// What is bad of this capture, or its transactions.
    Report {
        report: Report,
        capture: CaptureFile<'a>,
    },
    /// The events of this script, or a view of its run.
    Simulate {
        view: Option<View>,
        script: ScriptFile<'a>,
    },
    /// A node that serves so, with the house or the objects in this file.
    Serve {
        serving: Serving,
        objects: Option<&'a str>,
    },
    /// A node that serves so, and between stretches of at most a second looks at its document, or at standard input.
    ServeLooking {
        serving: Serving,
        objects: Option<&'a str>,
    },
    /// A node that serves so, and whose store the file at that path keeps.
    ServeKept {
        serving: Serving,
        objects: Option<&'a str>,
        path: &'a str,
    },
    /// What the file at this path keeps.
    Keep {
        path: &'a str,
        loss: Loss,
        form: ListForm,
    },
    /// What the file at a path is to forget.
    Forget(Forgetting<'a>),
    /// The request that some words are.
    Ask {
        asking: Asking,
        peer: Peer,
        words: &'m [&'a str],
    },
    /// The requests of the lines of this file; those of lines that name no peer are asked of this one.
    AskLines {
        asking: Asking,
        default: Option<Peer>,
        path: &'a str,
    },
    /// Work with whole files of a peer.
    Files {
        task: FileTask,
        work: FileWork<'m, 'a>,
    },
    /// Properties of a node, for people.
    Points(PointTask<'m, 'a>),
    /// Two nodes.
    Pair,
    /// What is told of the program.
    Tell(Telling<'a>),
}

/// What the run of a script is to be shown as; None where each event is printed.
fn view_of(given: &ArgMatches<'_>) -> Option<View> {
    if given.get_flag("chart") {
        Some(View::Chart)
    } else if given.get_flag("mermaid") {
        Some(View::Mermaid)
    } else if given.get_flag("pcap") {
        Some(View::Capture)
    } else if given.get_flag("text") {
        Some(View::Text)
    } else if given.get_flag("json") {
        Some(View::Objects)
    } else {
        None
    }
}

/// The file of a capture, with the port that is given. None where no file is.
fn capture_of<'a>(given: &ArgMatches<'a>, tells_why: bool) -> Option<CaptureFile<'a>> {
    let path = given.get_str("FILE")?;
    let port = given.get_one("port");
    Some(CaptureFile {
        path,
        port,
        reasons: tells_why,
    })
}

impl<'m, 'a> Task<'m, 'a> {
    /// The task with a client that asks from the address of this machine that the node sees, where the machine tells it.
    pub(crate) fn from_source<M: Machine>(self, machine: &M) -> Task<'m, 'a> {
        match self {
            Task::Ask {
                asking,
                peer,
                words,
            } => Task::Ask {
                asking: asking.towards(machine, peer),
                peer,
                words,
            },
            Task::Files { task, work } => Task::Files {
                task: task.from_source(machine),
                work,
            },
            Task::Points(task) => {
                Task::Points(task.shown_on(machine.is_screen()).from_source(machine))
            }
            task => task,
        }
    }
}

/// None where there is no subcommand, or its word is missing; clap refuses such words itself. Also where an address is none of IPv4, or a time is none. On a terminal
/// the progress of asks is shown. Where the command line tells why it fails, so does the task.
pub(crate) fn task_of<'m, 'a>(
    matches: &'m ArgMatches<'a>,
    is_terminal: bool,
    tells_why: bool,
) -> Option<Task<'m, 'a>> {
    match matches.subcommand()? {
        ("answer", given) => {
            let datagram = given.get_str("HEX")?;
            let objects = given.get_str("objects");
            Some(Task::Answer { datagram, objects })
        }
        ("decode", given) => Some(Task::Decode {
            decoding: decoding_of(given)?,
            datagrams: given.get_str("HEX")?,
        }),
        ("check", given) => Some(Task::Report {
            report: check_of(given),
            capture: capture_of(given, tells_why)?,
        }),
        ("explain", given) => Some(Task::Report {
            report: report_of(given)?,
            capture: capture_of(given, tells_why)?,
        }),
        ("simulate", given) => Some(Task::Simulate {
            view: view_of(given),
            script: ScriptFile {
                path: given.get_str("FILE")?,
                notes: given.get_flag("notes"),
                reasons: tells_why,
            },
        }),
        ("serve", given) => {
            let serving = serving_of(given)?;
            let objects = given.get_str("objects");
            if let Some(path) = given.get_str("keep") {
                return Some(Task::ServeKept {
                    serving,
                    objects,
                    path,
                });
            }
            if serving.follow || serving.until_eof {
                return Some(Task::ServeLooking { serving, objects });
            }
            Some(Task::Serve { serving, objects })
        }
        ("keep", given) => {
            let path = given.get_str("FILE")?;
            if let Some(object) = given.get_str("forget") {
                let property = given.get_str("P");
                return Some(Task::Forget(Forgetting {
                    path,
                    object,
                    property,
                }));
            }
            let loss = if given.get_flag("accept-loss") {
                Loss::Accepted
            } else {
                Loss::Refused
            };
            let form = if given.get_flag("json") {
                ListForm::Objects
            } else {
                ListForm::Lines
            };
            Some(Task::Keep { path, loss, form })
        }
        ("ask", given) => {
            let asking = asking_of(given, is_terminal)?;
            if let Some(path) = given.get_str("lines") {
                let default = default_of(given)?;
                return Some(Task::AskLines {
                    asking,
                    default,
                    path,
                });
            }
            let peer = peer_of(given, None)?;
            if let Some(work) = work_of(given, &asking) {
                let task = FileTask { asking, peer };
                return Some(Task::Files { task, work });
            }
            let words = given.get_strs("WORDS")?;
            Some(Task::Ask {
                asking,
                peer,
                words,
            })
        }
        (command @ ("get" | "put" | "backup" | "restore"), given) => Some(Task::Files {
            task: file_task_of(given, is_terminal)?,
            work: file_work_of(command, given)?,
        }),
        (command @ ("read" | "write" | "points"), given) => {
            Some(Task::Points(point_task_of(command, given)?))
        }
        ("pair", _) => Some(Task::Pair),
        ("help", given) if given.get_flag("man") => Some(Task::Tell(Telling::Manual)),
        ("help", given) if given.get_flag("all") => Some(Task::Tell(Telling::All)),
        ("help", given) => Some(Task::Tell(Telling::Help(given.get_str("COMMAND")))),
        ("version", _) => Some(Task::Tell(Telling::Version)),
        ("completion", given) => {
            let shell = Shell::named(given.get_str("SHELL"))?;
            Some(Task::Tell(Telling::Completion(shell)))
        }
        _ => None,
    }
}
