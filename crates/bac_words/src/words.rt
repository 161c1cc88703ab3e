//! The commands, what each takes, and their help.
//!
//! What a command takes is a text with a line for each word, in the order in which help lists them: `NAME|FORM|NEED|AGAINST|HELP`.
//! FORM is `bare`, `several`, `flag`, `one-of` (one of those that [`names_of`] has for NAME), `text VALUE`, `number VALUE MOST` (from 1), `index VALUE MOST` (from 0)
//! or `choice VALUE` (one of those names); VALUE is what help calls the text behind the name. NEED is `always`, `never`, `unless WORD`, `beside WORD` or, at the first of
//! words of which one is required, `one WORD..`. AGAINST is the words that it conflicts with, with spaces between. A line with `port`, `to`, `route` or `timeout` alone
//! stands for the word of that name that all commands take which ask a node.
use crate::capture_words::{
    CHECK, CHECK_EXAMPLES, DECODE, DECODE_EXAMPLES, EXPLAIN, EXPLAIN_EXAMPLES,
};
use crate::node_words::whole_line;

/// How a word of a command is given.
#[derive(Clone, Copy)]
pub(crate) enum WordForm {
    /// By itself.
    Bare,
    /// By itself, one or more of them.
    Several,
    /// By itself: one of these words.
    OneOf(&'static [&'static str]),
    /// By its name alone.
    Flag,
    /// By its name, with a text after it; this is what help calls that text.
    Text(&'static str),
    /// By its name, with a number after it, from 1 to the one given here.
    Number(&'static str, u64),
    /// The same, from 0.
    Index(&'static str, u64),
    /// By its name, with one of these words after it.
    Choice(&'static str, &'static [&'static str]),
}

/// When a word is required.
#[derive(Clone, Copy)]
pub(crate) enum Need {
    Always,
    /// If that word is absent.
    Unless(&'static str),
    /// One of these words, of which it is the first, is required; spaces stand between them.
    One(&'static str),
    Never,
    /// Never, and it is allowed only together with that word.
    Beside(&'static str),
}

/// A word of a command.
#[derive(Clone, Copy)]
pub(crate) struct Word {
    pub(crate) name: &'static str,
    pub(crate) form: WordForm,
    pub(crate) need: Need,
    /// The words that it conflicts with, with spaces between.
    pub(crate) against: &'static str,
    pub(crate) help: &'static str,
}

/// A command.
pub(crate) struct Grammar {
    pub(crate) name: &'static str,
    pub(crate) about: &'static str,
    /// What help prints after the words.
    pub(crate) after: &'static str,
    /// A line for each word, which [`Word::of`] reads.
    pub(crate) words: &'static str,
}

/// The names that a word may be, or have after it: the shells of `completion`, what a server logs, and the kinds of values.
fn names_of(word: &str) -> &'static [&'static str] {
    match word {
        "SHELL" => &["bash", "zsh", "fish"],
        "log-level" => &["changes", "requests", "all"],
        "kind" => KINDS,
        _ => &[],
    }
}

/// The part of a text before the first such mark, and the part after it: all of it and nothing, where the mark is not in it.
fn parts(text: &'static str, mark: char) -> (&'static str, &'static str) {
    text.split_once(mark).unwrap_or((text, ""))
}

/// The form of a word of that name, as a line says it; bare where it says none.
fn form_of(name: &'static str, text: &'static str) -> WordForm {
    let (form, value) = parts(text, ' ');
    let (value, most) = parts(value, ' ');
    let most = most.parse::<u64>().unwrap_or(0);
    match form {
        "several" => WordForm::Several,
        "one-of" => WordForm::OneOf(names_of(name)),
        "flag" => WordForm::Flag,
        "text" => WordForm::Text(value),
        "number" => WordForm::Number(value, most),
        "index" => WordForm::Index(value, most),
        "choice" => WordForm::Choice(value, names_of(name)),
        _ => WordForm::Bare,
    }
}

/// When a word is required, as a line says it; never where it says nothing.
fn need_of(text: &'static str) -> Need {
    let (need, words) = parts(text, ' ');
    match need {
        "always" => Need::Always,
        "unless" => Need::Unless(words),
        "one" => Need::One(words),
        "beside" => Need::Beside(words),
        _ => Need::Never,
    }
}

impl Word {
    /// The word of a line of a command's words.
    pub(crate) fn of(line: &'static str) -> Word {
        let (name, line) = parts(whole_line(line), '|');
        let (form, line) = parts(line, '|');
        let (need, line) = parts(line, '|');
        let (against, help) = parts(line, '|');
        Word {
            name,
            form: form_of(name, form),
            need: need_of(need),
            against,
            help,
        }
    }
}

/// The kinds of values.
const KINDS: &[&str] = &[
    "null",
    "boolean",
    "unsigned",
    "signed",
    "real",
    "double",
    "octets",
    "text",
    "bits",
    "enumerated",
    "date",
    "time",
    "object",
];

/// What `answer` takes.
const ANSWER: &str = "\
HEX|bare|always||The datagram, in hexadecimal
objects|text FILE|never||The node's objects, as a TOML document; by default an example: a device and four other objects";

/// The form of a script, and examples for `simulate`.
const SIMULATE_EXAMPLES: &str = "\
The first line of a script sets the network: `nodes N`, or `nodes N window W overtake V`
  N  the number of nodes, 1 to 16, each with its own house
  W  the greatest window in segments, 1 to 64; 32 by default
  V  how many later datagrams of a transaction may overtake one; 128 by default; V + 2W is at most 255
Each later line is an event; nodes and datagrams count from 0:
  ask C S REQUEST      node C asks node S; requests as in `bac ask`
  ask C LINK REQUEST   node C asks a stranger at LINK, A.B.C.D:PORT
  deliver K            datagram K arrives at its node
  lose K               a copy of datagram K counts as lost
  noise N HEX          octets that no node sent arrive at node N
  stranger N LINK HEX  octets from a stranger arrive at node N
  tick N               node N checks its timers
  advance MS           MS milliseconds pass
  set N T:I P HEX      node N changes a property in its store
  file N T:I HEX       node N changes a file in its store
  restart N            node N restarts with its store
  begin N              node N begins; nothing happened there before
  begin again N        another program begins at the link of node N
  pace N P             N's clock runs P millionths fast, -1000 to 1000
  clock N MS           N's clock starts at MS; before the first event

Example: bac simulate script.txt
Example: bac simulate --chart script.txt
Example: bac simulate --pcap script.txt > script.pcap";

/// What `simulate` takes.
const SIMULATE: &str = "\
FILE|bare|always||The script: the network, then one event per line; - is standard input
notes|flag|never||Accepts lines that end in CRLF, and skips blank lines and lines that begin with `#`
chart|flag|never||Draws a sequence chart instead, with a column of 41 characters for each node
mermaid|flag|never|chart|Prints that chart as a Mermaid `sequenceDiagram`
pcap|flag|never|chart mermaid|Writes the datagrams as a pcap file, each when it was sent
text|flag|never|chart mermaid pcap|Prints each event with its time and what it did, or why it did nothing
json|flag|never|chart mermaid pcap text|Prints each line as a JSON object";

/// Examples for `serve`.
const SERVE_EXAMPLES: &str = "\
Example: bac serve --port 47808
Example: bac serve --port 47808 --seconds 3600 --objects plant.toml
Example: bac serve --port 47808 --objects plant.toml --keep plant.db
Example: bac serve --objects plant.toml --follow --log-level changes
Example: bac serve --port 47808 --at 192.168.1.20 --restarted
Example: bac serve --port 47808 --turns 600";

/// What `serve` takes.
const SERVE: &str = "\
port|number P 65535|never||The UDP port to listen on, 1 to 65535; 47808 by default
turns|number N 1000000|never||Ends after N turns, 1 to 1000000; each waits at most 100 milliseconds for a datagram. By default it serves until you stop it
seconds|number S 1000000000|never||Ends after S seconds, 1 to 1000000000
at|text A.B.C.D|never||The IPv4 address of this machine to listen on, to which clients send requests; not 0.0.0.0. By default 127.0.0.1, which other machines cannot reach
slots|number N 65536|never||How many requests it can remember at once, 1 to 65536; by default 65536, or 64 with --turns
peers|text CIDR[,CIDR..]|never||The IPv4 addresses that it hears: at most 32 blocks such as 10.0.0.0/8,192.168.1.7, or `any`; it ignores datagrams from others. By default loopback, private (RFC 1918), shared (RFC 6598) and link-local addresses
rate|index KIB 1048576|never||Sends one IPv4 address at most KIB KiB a second, 0 to 1048576, plus three times what came from it; after a pause, up to 256 KiB at once, or two seconds' worth if that is more. 0 means no limit. By default 128, with no limit for loopback addresses
restarted|flag|never||The server ran before and lost what it remembered: for 65 seconds, until no repeat of an old request should arrive, it refuses new requests, except (without --strict) reads whose request and response fit in one APDU each
strict|flag|never||Lets no client reuse an invoke ID within 65 seconds: an equal request gets the kept response, any other is refused. --turns without --reuse implies it
reuse|flag|never|strict|Lets clients reuse an invoke ID at once, also with --turns; without --turns this is the default, unless --strict is given
remember|number S 65|never|strict|An equal write gets the kept response for S seconds, 1 to 65, and is then performed again: for clients that use one invoke ID for all requests. 65 by default; with --turns it requires --reuse
memory|text OCTETS|never||How many octets of requests and responses it may keep, 65540 to 1099511627776, also written as 512K or 64M; 64M by default. A request that may need more is ignored
objects|text FILE|never||The node's objects, as a TOML document; by default an example: a device and four other objects
keep|text FILE|never||Keeps each write in FILE, a database, before the response; a server started with FILE again has the kept values, and starts as with --restarted
log|flag|never||Logs each datagram that arrives, in full, and what was done for it, on standard error; --log-level can log less, and shortens long lines
log-level|choice LEVEL|never|log|Logs on standard error each write that was performed (changes), each request that was performed (requests), or each datagram (all); of more than 32 octets it shows the first 32 and the number of octets
json|flag|never||Prints each line of the log, and the lines at the start, as a JSON object
follow|flag|beside objects|turns|Watches the document of --objects, a regular file, and takes over the values that change in it; --keep keeps these too. It looks at most once a second. What a client wrote stays until the document changes that value
follow-limit|number MIB 1024|beside follow||Follows a document of at most MIB MiB, 1 to 1024; 8 by default. A larger one is not followed until it is smaller
until-eof|flag|never|keep turns|Ends when standard input ends, within a second";

/// Examples for `keep`.
const KEEP_EXAMPLES: &str = "\
Example: bac keep plant.db
Example: bac keep plant.db --forget analog-value:1 present-value
Example: bac keep plant.db --forget file:1
Example: bac keep plant.db --json
Example: bac keep copy.db --accept-loss";

/// What `keep` takes.
const KEEP: &str = "\
FILE|bare|always||The file that a server was given with --keep. Stop the server first: a file in use is refused
accept-loss|flag|never|forget|Accepts that writes are lost, where FILE-wal is missing, cut off or damaged, or FILE was copied without it: keeps what is left, and prints it
forget|text T:I|never||Forgets what is kept of an object, by type and instance, each by number or name, and prints only that: a server started with FILE again has the values of its document
P|bare|beside forget||The property to forget, by number or name; without it --forget forgets everything kept of the object, including its file
json|flag|never|forget|Prints each property and each file as a JSON object, one per line";

/// The parts of a request, and examples for `ask`.
const ASK_EXAMPLES: &str = "\
T:I is an object by type and instance, P a property, each by number or name; HEX is octets in hexadecimal
VALUE is a value with its kind: null, boolean:true, unsigned:7, signed:-7, enumerated:1, real:72.5, double:72.5, text:Room, characters:4:0041, octets:0AFF, bits:0100, date:1991-1-24-4, time:17:35:45.17 or object:device:7; or encoded data in HEX
`priority N` (1 to 16) may follow the last VALUE
POS is a position in a file, COUNT the number of octets to get
`@FILE` in place of the last HEX means the octets of that file

Example: bac ask --port 47808 read 0:5 85
Example: bac ask --port 47808 --text read analog-input:5 present-value
Example: bac ask --to 192.168.1.20 --route 5:2A --timeout 3 read device:7 object-name
Example: bac ask --to 192.168.1.20 write analog-value:1 present-value real:72.5 priority 8
Example: bac ask --to 192.168.1.20 --text --lines requests.txt --window 8
Example: bac ask --to 192.168.1.20 --text --lines points.txt --every 10
Example: bac ask --to 192.168.1.20 --text --every 60 read analog-input:5 present-value
Example: bac ask --to 192.168.1.20 --lines points.txt --csv --every 60 --times 60
Example: bac ask --to 192.168.1.20 --json read analog-input:5 present-value
Example: bac ask --port 47808 put file:1 0 @log.bin
Example: bac ask --port 47808 --raw get file:1 > log.bin
Example: bac ask --port 47808 --out log.bin get file:1
Example: bac ask --port 47808 put file:1 @log.bin";

/// What `ask` takes.
const ASK: &str = "\
port|number P 65535|one port to lines||The UDP port of the node to ask, on 127.0.0.1; 1 to 65535
to|text A.B.C.D[:P]|never|port|The IPv4 address of the node to ask, and its UDP port, 47808 by default
route
timeout|text TIME|never||Stops waiting after TIME, such as 500ms, 2s or 0.5 (a plain number is in seconds), at most 60 s, and prints `no ending`; a request ends by itself after at most 60 seconds
text|flag|never||Prints values with their kinds, errors and reasons by name, and the invalid argument
fail|flag|never||Ends with status 1 also if the response is an Error, or is for another object, property or index
raw|flag|never|text|For `get`: writes only the octets of the file; if there are none, standard error says how the request ended, and the status is 1
out|text FILE|never|raw json csv lines every|For `get T:I`: writes the octets of the whole file to FILE once it has read them all, and prints how many they are
json|flag|never|text raw|Prints each result as a JSON object, one per line
csv|flag|never|text raw json|Prints each result as a CSV row, below a row with the names of the columns: time,peer,object,property,kind,value,status
raw-text|flag|beside csv||Prints texts as they came. By default a text that a spreadsheet would compute has an apostrophe before it, and what would act on a terminal is escaped
lines|text FILE|never|WORDS raw|Sends the requests in FILE, one per line, in turn, and prefixes each result with its line number; `-` reads standard input. A line may begin with a name, such as `flow:`, which its result carries, and then with the address of its own node, `@A.B.C.D[:P]` or `@A.B.C.D[:P]/NET:MAC`; the other requests go to the node that --to or --port gives. Skips blank lines, and comments that begin with `#`; blanks separate words, a word with blanks in it needs quotes, and `@FILE` is not allowed. An invalid line is reported before anything is sent
window|number N 256|beside lines|WORDS|Has up to N requests in progress, 1 to 256, with an equal share for each node in the list; results are printed in the order of the lines. By default each waits for the one before
every|text S|never||Repeats the requests in rounds, one every S seconds, 0.001 to 1000000000. If a round takes longer than that, the next begins as soon as it ends, and standard error says how late; for a list it says so before the round ends, too
times|number N 1000000000|beside every||The number of rounds, 1 to 1000000000; by default it goes on until you stop it
WORDS|several|unless lines||The request: `read T:I P`, `write T:I P VALUE..`, `append T:I HEX`, `put T:I POS HEX` or `get T:I POS COUNT`; for a whole file `get T:I` or `put T:I @FILE`";

/// The commands that are neither for people nor tell of the program, in the order in which help lists them.
pub(crate) const OTHERS: &[Grammar] = &[
    Grammar {
        name: "answer",
        about: "Prints what a server sends back for a datagram, one datagram per line, or `none`",
        after: "Example: bac answer 810A001101040005010C0C000000051955",
        words: ANSWER,
    },
    Grammar {
        name: "decode",
        about: "Prints the layers of a datagram, one per line, up to the first that is invalid",
        after: DECODE_EXAMPLES,
        words: DECODE,
    },
    Grammar {
        name: "check",
        about: "Prints the invalid frames of a pcap or pcapng file, or the invalid lines of a capture, and how many are valid",
        after: CHECK_EXAMPLES,
        words: CHECK,
    },
    Grammar {
        name: "explain",
        about: "Lists the transactions in a pcap or pcapng file, how they ended, and what is wrong with their datagrams",
        after: EXPLAIN_EXAMPLES,
        words: EXPLAIN,
    },
    Grammar {
        name: "simulate",
        about: "Runs a script of events in a simulated network, and prints what each does",
        after: SIMULATE_EXAMPLES,
        words: SIMULATE,
    },
    Grammar {
        name: "serve",
        about: "Serves a device over UDP; when it ends by itself (--turns, --seconds, --until-eof), it prints how many requests it performed",
        after: SERVE_EXAMPLES,
        words: SERVE,
    },
    Grammar {
        name: "keep",
        about: "Prints what a server kept in a file, one property or file per line; the server must be stopped",
        after: KEEP_EXAMPLES,
        words: KEEP,
    },
    Grammar {
        name: "ask",
        about: "Sends a request to a node, and prints how it ended",
        after: ASK_EXAMPLES,
        words: ASK,
    },
    Grammar {
        name: "pair",
        about: "Runs two nodes on free UDP ports: one appends AABBCC to a file of the other, and then reads a value",
        after: "Example: bac pair",
        words: "",
    },
];
