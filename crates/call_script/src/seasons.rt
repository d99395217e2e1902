// The line of the season's report.
use call_script_text::line;
use ledger_season::{SeasonReport, SheetCounts};

// Writes the season's line. The numbers of each sheet stand between the count of sheets and the counts in all.
pub(crate) fn season(a: &[u8], out: &mut [u8], at: usize) -> usize {
    match ledger_season::season(a) {
        Ok(report) => reported(report, out, at),
        Err(why) => line::number(out, at, u64::from(refusals::number(why))),
    }
}

fn reported(report: SeasonReport, out: &mut [u8], at: usize) -> usize {
    let begun = line::number(out, at, call_script_text::ACCEPTED);
    let counted = line::number(out, begun, u64::from(report.count));
    let listed = each(out, counted, report);
    let end = counts(out, listed, report.total);
    match report.gap {
        Some(gap) => line::numbers(out, end, &[gap.sheet, gap.row, gap.number]),
        None => line::letters(out, end, b"none"),
    }
}

fn each(out: &mut [u8], at: usize, report: SeasonReport) -> usize {
    let mut end = at;
    for c in call_script_text::first(&report.sheets, report.count as usize) {
        end = counts(out, end, *c);
    }
    end
}

fn counts(out: &mut [u8], at: usize, c: SheetCounts) -> usize {
    line::numbers(out, at, &[c.ticked, c.missing, c.per_million])
}
