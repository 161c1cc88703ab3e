//! What stands around the rows: the front of the page, and its end with the counts.
ghost use Rattle.std.specs.Prelude.{◌≡◌, IfOk, codes, decimal, map, string_bytes};
ghost use Rattle.bac_explain_html.specs.Pages.{count, device_cells, device_row, device_rows, endings, last_part, others, section, slowest_text, number_cell};
ghost use Rattle.bac_explain_report.specs.DeviceViews.{device_view};

use bac_explain_report::{Device, Tally, Totals};
use bac_text::peer_text;
use std::alloc::{AllocError, Global};

/// The front of the page, up to the rows.
pub(crate) const FRONT: &str = "<!DOCTYPE html>
<html lang=\"en\">
<head>
<meta charset=\"utf-8\">
<meta name=\"viewport\" content=\"width=device-width, initial-scale=1\">
<title>BACnet transactions</title>
<style>
* { box-sizing: border-box; }
body { margin: 0; padding: 16px; display: flex; flex-direction: column; font: 15px/1.4 system-ui, sans-serif; color: #1b1f24; background: #f6f7f9; }
h1 { order: -3; margin: 0 0 12px; font-size: 22px; }
section { order: -2; display: flex; flex-wrap: wrap; gap: 8px; margin-bottom: 12px; }
section div { padding: 6px 12px; background: #fff; border: 1px solid #d7dce2; border-radius: 6px; }
form { order: -1; display: flex; flex-wrap: wrap; gap: 8px 16px; align-items: center; margin-bottom: 12px; }
form input[type=search] { flex: 1 1 220px; max-width: 420px; padding: 6px 10px; font: inherit; border: 1px solid #b6bec8; border-radius: 6px; }
.w { overflow-x: auto; background: #fff; border: 1px solid #d7dce2; border-radius: 6px; }
table { width: 100%; table-layout: fixed; border-collapse: collapse; font-size: 13px; }
th, td { padding: 6px; text-align: left; vertical-align: top; overflow-wrap: anywhere; }
th { background: #eceff3; }
.d { order: -2; max-height: 40vh; overflow: auto; margin-bottom: 12px; background: #fff; border: 1px solid #d7dce2; border-radius: 6px; }
.d th:first-child { width: 23%; }
.w th { width: 14%; }
.w th:nth-child(3), .w th:nth-child(7) { width: 6%; }
.w th:nth-child(4) { width: 18%; }
.w th:nth-child(5) { width: 15%; }
.w th:nth-child(6) { width: 10%; }
.w th:nth-child(8) { width: 5%; }
.w th:nth-child(9) { width: 12%; }
th button { padding: 0; font: inherit; font-weight: 600; color: inherit; background: none; border: 0; cursor: pointer; }
th[aria-sort=ascending] button::after { content: ' \\25B2'; }
th[aria-sort=descending] button::after { content: ' \\25BC'; }
tbody { border-top: 1px solid #d7dce2; }
td.n { text-align: right; font-variant-numeric: tabular-nums; }
td.f, .m { color: #a40e26; }
.m { max-width: 640px; padding: 0 60px; font-size: 13px; text-align: center; }
td.unanswered, td.error, td.aborted, td.rejected { color: #a40e26; font-weight: 600; }
tr.p td { padding-top: 0; }
summary { cursor: pointer; color: #49525e; }
svg { display: block; width: 100%; max-width: 640px; }
svg text { font: 13px system-ui, sans-serif; text-anchor: middle; }
svg text.s { text-anchor: start; font-weight: 600; }
svg text.e { text-anchor: end; font-weight: 600; }
svg .l { stroke: #b6bec8; fill: none; }
svg .a { stroke: #1f5fbf; stroke-width: 1.5; fill: none; }
@media (max-width: 700px) {
  body { padding: 10px; }
  .d table { min-width: 640px; }
  .w thead { display: none; }
  .w table, .w tbody, .w tr, .w td { display: block; }
  .w tbody { padding: 8px 0; }
  .w td, .w td.n { padding: 2px 10px; text-align: left; }
  .w td:empty { display: none; }
  tbody.t tr:first-child td { position: relative; padding-left: 104px; }
  tbody.t tr:first-child td::before { position: absolute; left: 10px; color: #6a737d; font-weight: 400; }
  tbody.t tr:first-child td:nth-child(1)::before { content: 'client'; }
  tbody.t tr:first-child td:nth-child(2)::before { content: 'server'; }
  tbody.t tr:first-child td:nth-child(3)::before { content: 'invoke ID'; }
  tbody.t tr:first-child td:nth-child(4)::before { content: 'request'; }
  tbody.t tr:first-child td:nth-child(5)::before { content: 'answer'; }
  tbody.t tr:first-child td:nth-child(6)::before { content: 'end'; }
  tbody.t tr:first-child td:nth-child(7)::before { content: 'after ms'; }
  tbody.t tr:first-child td:nth-child(8)::before { content: 'times'; }
  tbody.t tr:first-child td:nth-child(9)::before { content: 'findings'; }
  svg text { font-size: 17px; }
}
</style>
</head>
<body>
<h1>BACnet transactions</h1>
<form onsubmit=\"return false\">
<input type=\"search\" id=\"q\" placeholder=\"filter: an address, an object, a word\" aria-label=\"filter\">
<label><input type=\"checkbox\" id=\"u\"> unanswered</label>
<label><input type=\"checkbox\" id=\"w\"> with findings</label>
</form>
<div class=\"w\"><table>
<thead><tr><th>client</th><th>server</th><th>invoke ID</th><th>request</th><th>answer</th><th>end</th><th>after ms</th><th>times</th><th>findings</th></tr></thead>
";

/// What stands above the rows of servers.
pub(crate) const DEVICES: &str = "<div class=\"d\"><table>
<thead><tr><th>device</th><th>transactions</th><th>answered</th><th>errors</th><th>rejected</th><th>aborted</th><th>unanswered</th><th>slowest ms</th></tr></thead><tbody>
";

/// The end of the page: the script that sorts and filters the rows.
pub(crate) const BACK: &str = "<script>
const table = document.querySelector('table');
const rows = [...table.querySelectorAll('tbody.t')];
const others = [...table.querySelectorAll('tbody.o')];
const heads = [...table.querySelectorAll('th')];
const numeric = [2, 6, 7];
const text = (row, column) => row.rows[0].cells[column].textContent;
const key = (row, column) => numeric.includes(column) ? (text(row, column) === '' ? Infinity : Number(text(row, column))) : text(row, column);
function sort(column, down) {
  const less = (a, b) => a < b ? -1 : a > b ? 1 : 0;
  rows.sort((a, b) => (down ? -1 : 1) * less(key(a, column), key(b, column)));
  table.append(...rows, ...others);
  heads.forEach((head, i) => i === column ? head.setAttribute('aria-sort', down ? 'descending' : 'ascending') : head.removeAttribute('aria-sort'));
}
heads.forEach((head, column) => {
  const button = document.createElement('button');
  button.type = 'button';
  button.textContent = head.textContent;
  button.onclick = () => sort(column, head.getAttribute('aria-sort') !== 'descending');
  head.replaceChildren(button);
});
const [word, silent, wrong] = ['q', 'u', 'w'].map(id => document.getElementById(id));
function filter() {
  const wanted = word.value.toLowerCase();
  rows.forEach(row => {
    const shown = row.textContent.toLowerCase().includes(wanted) && (!silent.checked || row.classList.contains('u')) && (!wrong.checked || text(row, 8) !== '');
    row.hidden = !shown;
  });
  others.forEach(row => row.hidden = silent.checked || !row.textContent.toLowerCase().includes(wanted));
}
[word, silent, wrong].forEach(input => input.oninput = filter);
sort(6, true);
rows.slice(0, 3).forEach(row => row.querySelector('details').open = true);
</script>
</body>
</html>
";

/// A count, with its name.
fn count(alloc: Global, name: &str, value: u64) -> Result<String, AllocError>
    ensures { IfOk result (λ t. string_bytes t ≡ count name.now (decimal value)) }
{
    format!(in alloc; "<div><b>{value}</b> {name}</div>")
}

/// How many transactions there are, and how they ended.
fn endings(alloc: Global, totals: Totals) -> Result<String, AllocError>
    ensures { IfOk result (λ t. string_bytes t ≡ endings totals) }
{
    let all = count(alloc, "transactions", totals.transactions)?;
    let answered = count(alloc, "answered", totals.answered)?;
    let errors = count(alloc, "errors", totals.errors)?;
    let rejected = count(alloc, "rejected", totals.rejected)?;
    let aborted = count(alloc, "aborted", totals.aborted)?;
    let unanswered = count(alloc, "unanswered", totals.unanswered)?;
    format!(in alloc; "{all}{answered}{errors}{rejected}{aborted}{unanswered}")
}

/// The delay of the slowest answer; `-` if there is none.
fn slowest(alloc: Global, slowest: Option<u64>) -> Result<String, AllocError>
    ensures { IfOk result (λ t. string_bytes t ≡ count (codes "ms, the slowest") (slowest_text slowest)) }
{
    match slowest {
        Some(slowest) => count(alloc, "ms, the slowest", slowest),
        None => String::from_str(alloc, "<div><b>-</b> ms, the slowest</div>"),
    }
}

/// The slowest answer, and the numbers of findings, frames, unread frames and printed transactions.
fn others(alloc: Global, tally: Tally) -> Result<String, AllocError>
    ensures { IfOk result (λ t. string_bytes t ≡ others tally) }
{
    let slowest = slowest(alloc, tally.totals.slowest)?;
    let findings = count(alloc, "findings", tally.findings)?;
    let frames = count(alloc, "frames", tally.frames)?;
    let unread = count(alloc, "unread", tally.unread)?;
    let shown = count(alloc, "shown", tally.shown)?;
    format!(in alloc; "{slowest}{findings}{frames}{unread}{shown}")
}

/// The cell of a count.
fn count_cell(alloc: Global, value: u64) -> Result<String, AllocError>
    ensures { IfOk result (λ t. string_bytes t ≡ number_cell (decimal value)) }
{
    format!(in alloc; "<td class=\"n\">{value}</td>")
}

/// The cell of the delay of the slowest answer; `-` if there is none.
fn slowest_cell(alloc: Global, slowest: Option<u64>) -> Result<String, AllocError>
    ensures { IfOk result (λ t. string_bytes t ≡ number_cell (slowest_text slowest)) }
{
    match slowest {
        Some(slowest) => count_cell(alloc, slowest),
        None => String::from_str(alloc, "<td class=\"n\">-</td>"),
    }
}

/// The cells of how the transactions of a server ended.
fn device_cells(alloc: Global, totals: Totals) -> Result<String, AllocError>
    ensures { IfOk result (λ t. string_bytes t ≡ device_cells totals) }
{
    let all = count_cell(alloc, totals.transactions)?;
    let answered = count_cell(alloc, totals.answered)?;
    let errors = count_cell(alloc, totals.errors)?;
    let rejected = count_cell(alloc, totals.rejected)?;
    let aborted = count_cell(alloc, totals.aborted)?;
    let unanswered = count_cell(alloc, totals.unanswered)?;
    let slowest = slowest_cell(alloc, totals.slowest)?;
    format!(in alloc; "{all}{answered}{errors}{rejected}{aborted}{unanswered}{slowest}")
}

/// The row of a server.
fn device_row(alloc: Global, device: Device) -> Result<String, AllocError>
    ensures { IfOk result (λ t. string_bytes t ≡ device_row (device_view device)) }
{
    let server = peer_text(alloc, device.server)?;
    let cells = device_cells(alloc, device.totals)?;
    format!(in alloc; "<tr><td>{server}</td>{cells}</tr>\n")
}

/// The rows of servers.
fn device_rows(alloc: Global, devices: &[Device]) -> Result<Vec<u8>, AllocError>
    ensures { IfOk result (λ t. t.items ≡ device_rows (map device_view devices.now)) }
{
    let mut text = Vec::new(alloc);
    for device in devices {
        let row = device_row(alloc, *device)?;
        text.extend_from_slice(row.as_bytes())?;
    }
    Ok(text)
}

/// The counts of all transactions.
fn section(alloc: Global, tally: Tally) -> Result<String, AllocError>
    ensures { IfOk result (λ t. string_bytes t ≡ section tally) }
{
    let endings = endings(alloc, tally.totals)?;
    let others = others(alloc, tally)?;
    format!(in alloc; "</table></div>\n<section>{endings}{others}</section>\n")
}

/// The end of the page, with the counts.
pub(crate) fn last_part(
    alloc: Global,
    tally: Tally,
    devices: &[Device],
) -> Result<Vec<u8>, AllocError>
    ensures { IfOk result (λ t. t.items ≡ last_part tally (map device_view devices.now)) }
{
    let rows = device_rows(alloc, devices)?;
    let mut text = section(alloc, tally)?.into_bytes();
    text.extend_from_slice(DEVICES.as_bytes())?;
    text.extend_from_slice(&rows)?;
    text.extend_from_slice(b"</tbody></table></div>\n")?;
    text.extend_from_slice(BACK.as_bytes())?;
    Ok(text)
}
