//! What `decode`, `check` and `explain` take: the commands that read datagrams and captures.

/// Examples for `decode`.
pub(crate) const DECODE_EXAMPLES: &str = "\
Example: bac decode 810A000801001013
Example: bac decode --text '81 0a 00 08 01 00 10 13'
Example: bac decode --text - < datagrams.txt
Example: bac decode --text --number --form hexdump - < dump.txt
Example: bac decode --form base64 gQoACAEAEBM=
Example: bac decode --text --frame --form hexdump - < packet.txt";

/// What `decode` takes.
pub(crate) const DECODE: &str = "\
HEX|bare|always||The datagram in hexadecimal; spaces, tabs or colons may separate groups, and `0x` may begin one. `-` reads datagrams from standard input: one per line, or in another form that it recognizes
text|flag|never||Prints objects, properties, errors, reasons and faults by name, and values with their kinds
form|text FORM|never|json|The form of the datagrams, as Wireshark copies them: `hex`, `hexdump`, `escaped`, `c` (C arrays), `base64`, or `auto` to detect it. Give only the part from BACnet/IP (0x81) on, without the headers before it, unless --frame is given
number|flag|never|json|Prints a line `datagram N` before each datagram, counted from 1
frame|flag|never|json|Reads whole Ethernet frames, as Wireshark copies packets, and prints the datagram in each from or to UDP port 47808 to 47823
json|flag|never|text|Prints each datagram as a JSON object, one per line";

/// Examples for `check`.
pub(crate) const CHECK_EXAMPLES: &str = "\
Example: bac check capture.txt
Example: bac check capture.pcapng";

/// What `check` takes.
pub(crate) const CHECK: &str = "\
FILE|bare|always||The capture: pcap, pcapng, or lines `moment from to hex`; - is standard input
port|number P 65535|never||Another UDP port that carries BACnet/IP, besides 47808 to 47823
notes|flag|never|port|Accepts lines that end in CRLF, and skips blank lines and lines that begin with `#`
text|flag|never||Prints faults in words; for pcap and pcapng also how many frames carry each other BVLC function, by name
json|flag|never|text|Prints each invalid frame or line, and the counts, as a JSON object, one per line";

/// Examples for `explain`.
pub(crate) const EXPLAIN_EXAMPLES: &str = "\
Example: bac explain capture.pcapng
Example: bac explain --chart capture.pcapng
Example: bac explain --chart --pairs --values capture.pcapng
Example: bac explain --peer 192.168.1.20 --slower 300ms capture.pcapng
Example: bac explain --repeated capture.pcapng
Example: bac explain --unanswered --fail capture.pcapng
Example: tcpdump -i eth0 -U -w - udp port 47808 | bac explain -
Example: bac explain --json capture.pcapng | jq 'select(.unanswered)'
Example: bac explain --html capture.pcapng > capture.html";

/// What `explain` takes.
pub(crate) const EXPLAIN: &str = "\
FILE|bare|always||The capture: pcap or pcapng; - is standard input
port|number P 65535|never||Another UDP port that carries BACnet/IP, besides 47808 to 47823
chart|flag|never||Draws a sequence chart instead, with a column of 41 characters for each peer, at most 16
mermaid|flag|never|chart|Prints that chart as a Mermaid `sequenceDiagram`
unanswered|flag|never|chart mermaid|Prints only transactions without an answer
errors|flag|never|chart mermaid|Prints only transactions that ended with an Error, a Reject or an Abort
repeated|flag|never|chart mermaid|Prints only transactions whose request, or a segment of it, was sent more than once, whether answered or not. If the capture lacks segments of a request, a repeat may go unnoticed
findings|flag|never|chart mermaid|Prints only transactions with a finding
slower|text TIME|never|chart mermaid|Prints only transactions whose answer took more than TIME, or that have no answer: 300ms, 2s, 1m, or a number of milliseconds, 1 to 1000000000
peer|text A.B.C.D[:P]|never|chart mermaid|Prints only transactions whose client or server has this IPv4 address, and this UDP port if one is given
fail|flag|never|chart mermaid|Ends with status 1 if it prints a transaction without an answer or with a finding, or an answer to no request, or if a frame cannot be read
json|flag|never|chart mermaid|Prints each transaction, and the counts, as a JSON object, one per line
html|flag|never|chart mermaid json|Prints an HTML page: the transactions as a table that sorts and filters, with a picture of each
values|flag|never|unanswered errors repeated findings slower peer fail json html frames strict-ids|Draws a chart (with --mermaid a Mermaid one) with the values of each answer that fits in one APDU
pairs|flag|never|unanswered errors repeated findings slower peer fail json html frames strict-ids|Draws a chart for each client and server, one after the other, however many there are; with --mermaid as sections of Markdown
frames|flag|never|chart mermaid json html|Prints a line for each transaction with the numbers of its frames, as Wireshark counts them
strict-ids|flag|never|chart mermaid|Also counts it as a finding if a client reuses an invoke ID within 65 seconds, even after the first transaction had ended";
