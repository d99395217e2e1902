// The lines of numbers. Each function writes its text from index `at` on, and gives the index behind it.
ghost use Rattle.std.specs.Prelude.{◌+◌, ◌≤◌, length};
ghost use Rattle.text.specs.Text.{Puts};
ghost use Rattle.season_report_text.specs.Page.{heading, counts, rate, numbers, total_line};
ghost use Rattle.season_report_text.specs.inner.Room.{most_counts, most_rate, most_numbers, most_total};

use ledger_season::SheetCounts;

// Writes the first line.
pub(crate) fn put_heading(out: &mut [u8]) -> usize
    requires { length heading ≤ length out.old }
    ensures { Puts out.old out.new 0 result heading }
{
    text::put_text(out, 0, b"sheet rows ticked missing per-million\n")
}

// Writes what follows a name.
pub(crate) fn put_numbers(
    out: &mut [u8],
    at: usize,
    rows: u64,
    c: SheetCounts,
    converted: bool,
) -> usize
    requires { at + most_numbers ≤ length out.old }
    ensures puts { Puts out.old out.new at result (numbers rows c converted) }
    ensures upper_bound { result ≤ at + most_numbers }
{
    let a = put_counts(out, at, rows, c);
    put_rate(out, a, c.per_million, converted)
}

// Writes how many rows are used, how many positions are ticked and how many are missing.
fn put_counts(out: &mut [u8], at: usize, rows: u64, c: SheetCounts) -> usize
    requires { at + most_counts ≤ length out.old }
    ensures puts { Puts out.old out.new at result (counts rows c) }
    ensures upper_bound { result ≤ at + most_counts }
{
    let start = text::put_text(out, at, b" ");
    let a = text::put_numeral(out, start, rows, text::SPACE);
    let b = text::put_numeral(out, a, c.ticked as u64, text::SPACE);
    text::put_numeral(out, b, c.missing as u64, text::SPACE)
}

// Writes how many are missing per million, and whether the sheet was converted.
fn put_rate(out: &mut [u8], at: usize, n: u32, converted: bool) -> usize
    requires { at + most_rate ≤ length out.old }
    ensures puts { Puts out.old out.new at result (rate n converted) }
    ensures upper_bound { result ≤ at + most_rate }
{
    if converted {
        let a = text::put_numeral(out, at, n as u64, text::SPACE);
        return text::put_text(out, a, b"converted\n");
    }
    text::put_numeral(out, at, n as u64, text::LINE_END)
}

// Writes the line of all sheets together.
pub(crate) fn put_total(out: &mut [u8], at: usize, rows: u64, total: SheetCounts) -> usize
    requires { at + most_total ≤ length out.old }
    ensures puts { Puts out.old out.new at result (total_line rows total) }
    ensures upper_bound { result ≤ at + most_total }
{
    let a = text::put_text(out, at, b"total");
    put_numbers(out, a, rows, total, false)
}
