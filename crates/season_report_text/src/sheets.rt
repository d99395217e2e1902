// The lines that name a sheet by its file. Each function writes its text from index `at` on, and gives the index behind it.
ghost use Rattle.std.specs.Prelude.{◌≡◌, ◌+◌, ◌*◌, ◌≤◌, ◌<◌, ◌^◌, length};
ghost use Rattle.text.specs.Text.{Puts};
ghost use Rattle.ledger_sheet.specs.Sheet.{sheet_size};
ghost use Rattle.ledger_season.specs.Report.{most_sheets};
ghost use Rattle.season_report_text.specs.Page.{name_size, name_of, rows_of, found, gap_place, gap_line};
ghost use Rattle.season_report_text.specs.inner.Room.{most_line, most_place, most_gap, Named, Lines};

use crate::{Files, Laid, lines};
use ledger_season::{SeasonGap, SeasonReport};
use ledger_sheet as sheet;
use ledger_sheet::right;

const COMMA: u8 = b',';

// Writes a line for each sheet.
pub(crate) fn put_lines(
    out: &mut [u8],
    at: usize,
    names: &[u8],
    sheets: &[u8],
    files: Files,
    report: SeasonReport,
) -> Laid
    requires most_sheets_in_bounds { at + most_line * most_sheets ≤ length out.old }
    requires named { Named names.now files × (sheet_size * files.count ≤ length sheets.now) }
    ensures { Lines out.old out.new at names.now sheets.now files report result }
{
    let mut end = at;
    let mut rows: u64 = 0;
    // By index, since each turn reads the name, the sheet, its counts and whether it was converted, each in its own slice.
    for i in 0..files.count {
        let used = rows_of(sheets, i);
        let named = put_name(out, end, names, files, i);
        end = lines::put_numbers(out, named, used, report.sheets[i], files.converted[i]);
        rows += used;
    }
    Laid { end, rows }
}

// How many rows of sheet i are used.
fn rows_of(sheets: &[u8], i: usize) -> u64
    requires { sheet_size * i + sheet_size ≤ length sheets.now }
    ensures { (result ≡ rows_of sheets.now i) × (result < 2 ^ 32) }
{
    let a = sheet::SHEET * i;
    let e = a + sheet::SHEET;
    right::rows_used(&sheets[a..e]) as u64
}

// Writes the name of file i; nothing if there is no such file.
fn put_name(out: &mut [u8], at: usize, names: &[u8], files: Files, i: usize) -> usize
    requires { (at + name_size ≤ length out.old) × Named names.now files }
    ensures puts { Puts out.old out.new at result (name_of names.now files i) }
    ensures upper_bound { result ≤ at + name_size }
{
    if ledger_season::MOST_SHEETS <= i {
        return at;
    }
    let a = crate::NAME * i;
    let e = a + files.sizes[i];
    text::put_text(out, at, &names[a..e])
}

// Writes the line of the first gap.
pub(crate) fn put_gap(
    out: &mut [u8],
    at: usize,
    names: &[u8],
    files: Files,
    gap: Option<SeasonGap>,
) -> usize
    requires { (at + most_gap ≤ length out.old) × Named names.now files }
    ensures puts { Puts out.old out.new at result (gap_line names.now files gap) }
    ensures upper_bound { result ≤ at + most_gap }
{
    let a = text::put_text(out, at, b"first gap: ");
    put_place(out, a, names, files, gap)
}

// Writes where the gap is, with the sheet's name; or none.
fn put_place(out: &mut [u8], at: usize, names: &[u8], files: Files, gap: Option<SeasonGap>) -> usize
    requires { (at + most_place ≤ length out.old) × Named names.now files }
    ensures puts { Puts out.old out.new at result (gap_place names.now files gap) }
    ensures upper_bound { result ≤ at + most_place }
{
    match gap {
        None => text::put_text(out, at, b"none\n"),
        Some(gap) => put_found(out, at, names, files, gap),
    }
}

// Writes the place of a gap.
fn put_found(out: &mut [u8], at: usize, names: &[u8], files: Files, gap: SeasonGap) -> usize
    requires { (at + most_place ≤ length out.old) × Named names.now files }
    ensures puts { Puts out.old out.new at result (found (name_of names.now files gap.sheet) gap.row gap.number) }
    ensures upper_bound { result ≤ at + most_place }
{
    let a = put_name(out, at, names, files, gap.sheet as usize);
    let b = text::put_text(out, a, b", row ");
    let c = text::put_numeral(out, b, gap.row as u64, COMMA);
    let d = text::put_text(out, c, b" number ");
    text::put_numeral(out, d, gap.number as u64, text::LINE_END)
}
