// The season's gap report as text (document 02, request 13): the heading, a line for each sheet, their total, and the first gap. Writes it into a
// lent slice. `ledger_season` gives the numbers.

#![tactic(auto)]

mod lines;
mod sheets;

ghost use Rattle.std.specs.Prelude.{◌≡◌, ◌≤◌, length};
ghost use Rattle.text.specs.Text.{Puts};
ghost use Rattle.season_report_text.specs.Page.{page};
ghost use Rattle.season_report_text.specs.inner.Room.{most_page, Ready};

use ledger_season::SeasonReport;

// The length of a name's slot.
pub const NAME: usize = 4096;

// The length of the longest page.
pub const PAGE: usize = 71357;

// The files of a season, with one sheet each: how many there are, how long their names are, and which sheets were converted.
#[derive(Clone, Copy)]
pub struct Files {
    pub count: usize,
    pub sizes: [usize; ledger_season::MOST_SHEETS],
    pub converted: [bool; ledger_season::MOST_SHEETS],
}

// Where the lines of the sheets end, and how many rows these use. (Public because the prover needs it.)
#[derive(Clone, Copy)]
pub struct Laid {
    pub end: usize,
    pub rows: u64,
}

// A buffer for the longest page.
pub fn room() -> [u8; PAGE]
    ensures { most_page ≡ length result }
{
    [0; PAGE]
}

// Writes the page at the start of `out`, and gives the index behind it. The names are in slots, one after another; so are the sheets.
pub fn lay_out(
    out: &mut [u8],
    names: &[u8],
    sheets: &[u8],
    files: Files,
    report: SeasonReport,
) -> usize
    requires { Ready out.old names.now sheets.now files }
    ensures puts { Puts out.old out.new 0 result (page names.now sheets.now files report) }
    ensures upper_bound { result ≤ most_page }
{
    let start = lines::put_heading(out);
    let laid = sheets::put_lines(out, start, names, sheets, files, report);
    let total = report.total;
    let end = lines::put_total(out, laid.end, laid.rows, total);
    let gap = report.gap;
    sheets::put_gap(out, end, names, files, gap)
}
