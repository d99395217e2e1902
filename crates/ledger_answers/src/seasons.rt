// The numbers of a season in all. Those of each sheet would not fit; a host can ask for the season of one sheet.
ghost use Rattle.std.specs.Prelude.{[], ◌∷◌, ◌++◌, ◌≡◌};
ghost use Rattle.ledger_season.specs.Season.{counts_words, or_further};
ghost use Rattle.answers.specs.Numbers.{numbers_of, plain, with_none};
ghost use Rattle.answers.specs.inner.Numbers.{Numbers};
ghost use Rattle.ledger_answers.specs.Seasons.{in_all_count};
ghost use Rattle.ledger_answers.specs.inner.Seasons.{in_all_words};

use answers::{NONE, NUMBERS, places};
use ledger_season::{SeasonGap, SeasonReport, SheetCounts};
use refusals::Refusal;

pub fn in_all(answer: Result<SeasonReport, Refusal>) -> [u64; NUMBERS]
    ensures { Numbers result (with_none in_all_count (in_all_words answer)) }
{
    match answer {
        Ok(report) => counted(report.count, report.total, report.gap),
        Err(why) => answers::all(answers::refused(why)),
    }
}

fn counted(count: u32, total: SheetCounts, gap: Option<SeasonGap>) -> [u64; NUMBERS]
    ensures { Numbers result (with_none in_all_count (0 ∷ count ∷ counts_words total ++ or_further gap [])) }
{
    match gap {
        None => with_gap(count, total, NONE, NONE, NONE),
        Some(gap) => with_gap(
            count,
            total,
            gap.sheet as u64,
            gap.row as u64,
            gap.number as u64,
        ),
    }
}

fn with_gap(count: u32, total: SheetCounts, sheet: u64, row: u64, number: u64) -> [u64; NUMBERS]
    ensures { result ≡ numbers_of (plain (0 ∷ count ∷ counts_words total ++ sheet ∷ row ∷ number ∷ [])) }
{
    let mut numbers = [0u64; NUMBERS];
    numbers[places::SEASON_SHEETS] = count as u64;
    numbers[places::SEASON_TICKED] = total.ticked as u64;
    numbers[places::SEASON_MISSING] = total.missing as u64;
    numbers[places::SEASON_PER_MILLION] = total.per_million as u64;
    numbers[places::SEASON_GAP_SHEET] = sheet;
    numbers[places::SEASON_GAP_ROW] = row;
    numbers[places::SEASON_GAP_NUMBER] = number;
    numbers
}
