//! What is printed of capture files.
use crate::seen::file_of;
use crate::words::octets_of;
use bac_capture::{Ports, check_capture_over};
use bac_explain_html::explain_html_over;
use bac_explain_json::explain_json_over;
use bac_explain_report::{ChartFormat, ChartOptions, ReportOptions, chart_over, explain_over};
use bac_rows::row::{Row, place_of};
use std::alloc::Global;
use std::io::{BufRead, BufReader, Write};

const PORTS: Ports = Ports { also: None };

/// The options of the chart of a name, as `mermaid-pairs`: its form, whether it has values, and whether there is one for each pair.
pub(crate) fn chart_of(name: &str) -> ChartOptions {
    let form = if name.starts_with("mermaid") {
        ChartFormat::Mermaid
    } else {
        ChartFormat::Chart
    };
    ChartOptions {
        form,
        values: place_of("chart-values mermaid-values mermaid-pairs", name) < 3,
        pairs: place_of("chart-pairs mermaid-pairs pairs-file", name) < 3,
    }
}

/// What is printed of a file.
#[derive(Clone, Copy)]
pub(crate) enum Print {
    /// The datagrams that are faulty, and counts; by number, or in words and with other functions by name.
    Check(bool),
    /// The transactions, as those options say.
    Explain(ReportOptions),
    /// The transactions as objects of JSON, as those options say.
    ExplainJson(ReportOptions),
    /// The transactions as a page of HTML, as those options say.
    ExplainHtml(ReportOptions),
    /// A chart of them, or charts.
    Chart(ChartOptions),
}

/// Prints that; the exit status.
pub(crate) fn status_of<R: BufRead, O: Write>(
    alloc: Global,
    print: Print,
    input: &mut R,
    out: &mut O,
    err: &mut Vec<u8>,
) -> u8 {
    let status = match print {
        Print::Check(named) => check_capture_over(alloc, input, PORTS, named, out, err),
        Print::Explain(options) => explain_over(alloc, options, input, PORTS, out, err),
        Print::ExplainHtml(options) => { explain_html_over(alloc, options, input, PORTS, out, err) }
        Print::ExplainJson(options) => { explain_json_over(alloc, options, input, PORTS, out, err) }
        Print::Chart(options) => chart_over(alloc, options, input, PORTS, out, err),
    };
    status.code()
}

/// Prints an input, and how it ends.
pub(crate) fn print_over<R: BufRead>(print: Print, input: &mut R, row: &mut Row) {
    let mut err = Vec::new(row.alloc);
    let code = status_of(row.alloc, print, input, &mut row.told, &mut err);
    row.tell_end(code, &err);
}

/// Prints a file whose reader has that many octets at hand at a time.
fn print_by(print: Print, file: &[u8], at_hand: usize, row: &mut Row) {
    match BufReader::with_capacity(row.alloc, at_hand, file) {
        Ok(mut input) => print_over(print, &mut input, row),
        Err(_) => row.fail(),
    }
}

/// Notes a fault where something else is printed of a file whose reader has few octets at hand.
fn compare(print: Print, file: &[u8], at_hand: usize, told: &[u8], row: &mut Row) {
    let mut other = Row::new(row.alloc);
    print_by(print, file, at_hand, &mut other);
    row.needs(other.told.as_slice() == told);
}

/// Prints a file, which has to print the same where its reader has few octets at hand.
fn print_file(print: Print, file: &[u8], row: &mut Row) {
    let mut told = Row::new(row.alloc);
    print_by(print, file, 8_192, &mut told);
    row.take(&told);
    compare(print, file, 1, &told.told, row);
    compare(print, file, 7, &told.told, row);
}

/// Prints a file of hexadecimal digits.
pub(crate) fn print_octets(print: Print, digits: &str, row: &mut Row) {
    print_file(print, &octets_of(digits, row), row);
}

/// Prints a file of datagrams.
pub(crate) fn print_seen(print: Print, lines: &str, row: &mut Row) {
    let file = file_of(lines, row);
    print_file(print, &file.told, row);
}

/// Prints how a print of a file ends whose output is that one.
pub(crate) fn print_end<O: Write>(print: Print, mut file: &[u8], out: &mut O, row: &mut Row) {
    let mut err = Vec::new(row.alloc);
    let code = status_of(row.alloc, print, &mut file, out, &mut err);
    row.tell_end(code, &err);
}

/// Prints how a chart of a file of datagrams ends, and not the chart.
pub(crate) fn print_end_of_chart(lines: &str, row: &mut Row) {
    let file = file_of(lines, row);
    let mut drawn = Vec::new(row.alloc);
    print_end(Print::Chart(chart_of("chart")), &file.told, &mut drawn, row);
}
