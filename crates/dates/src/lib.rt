// Day counts: from a year and a day of the year to the days since 1 January 1900, and back (document 02, Req 01).

#![tactic(auto)]

ghost use Rattle.std.specs.Prelude.{◌≡◌, ◌≤◌, ◌+◌};
ghost use Rattle.dates.specs.Calendar.{first_year, last_year, last_count, is_leap, year_length, new_year, is_year, is_day, is_date, date_of};
ghost use Rattle.dates.specs.Answers.{words_of};
ghost use Rattle.dates.specs.Table.{NewYears};
ghost use Rattle.dates.specs.inner.Within.{Within};
ghost use Rattle.dates.specs.inner.Counted.{count_of};

use refusals::Refusal;

mod table;

use table::{NEW_YEARS, YEARS};

const FIRST_YEAR: u16 = 1900;

const LAST_YEAR: u16 = 3000;

// The day count of the last day of the last year.
const LAST_COUNT: u32 = 402131;

const YEAR_DAYS: u32 = 365;

// How many leap years there are from year 1 to year 1899.
const LEAPS_TO_1899: u32 = 460;

// The calendar repeats every 400 years, which have 146,097 days.
const CYCLE_YEARS: u32 = 400;

const CYCLE_DAYS: u32 = 146097;

// A 1 January comes at most this many four-hundredths of a day earlier than the cycle's mean year would put it.
const EARLY: u32 = 496;

// A year, and its entry in the table: the day count of its 1 January.
#[derive(Clone, Copy)]
struct TableYear {
    year: u16,
    start: u32,
}

// A date: a year and a day of the year, which counts from 1.
#[derive(Clone, Copy, Debug, PartialEq, Eq)]
pub struct Date {
    pub year: u16,
    pub day: u16,
}

// The table of new years: entry i is the day count of 1 January of the year 1900 + i.
pub fn new_years() -> [u32; YEARS]
    ensures { NewYears result }
{
    NEW_YEARS
}

pub fn is_leap(year: u16) -> bool
    ensures { result ≡ is_leap year }
{
    if year % 4 != 0 {
        return false;
    }
    if year % 100 != 0 {
        return true;
    }
    year % 400 == 0
}

pub fn days_in(year: u16) -> u16
    ensures { result ≡ year_length year }
{
    if is_leap(year) { 366 } else { 365 }
}

// Whether the table has the year.
pub fn is_year(year: u16) -> bool
    ensures { result ≡ is_year year }
{
    (FIRST_YEAR <= year) & (year <= LAST_YEAR)
}

// Whether the year has the day. Days count from 1.
pub fn is_day(year: u16, day: u16) -> bool
    ensures { result ≡ is_day year day }
{
    (1 <= day) & (day <= days_in(year))
}

// Whether a year and a day of the year are a date, and the table has the year.
pub fn is_date(year: u16, day: u16) -> bool
    ensures { result ≡ is_date year day }
{
    is_year(year) & is_day(year, day)
}

// The day count of 1 January of a year: 365 days for each year, and one more for each leap year. Computing it is quicker than reading the table, and
// read headers needs it for every RSR record.
fn new_year(year: u16) -> u32
    requires { (first_year ≤ year) × (year ≤ last_year) }
    ensures { result ≡ new_year year }
{
    let over = year as u32 - 1;
    let leaps = over / 4 + over / 400 - over / 100 - LEAPS_TO_1899;
    (year - FIRST_YEAR) as u32 * YEAR_DAYS + leaps
}

// The day count of a date, and nothing for what is no date. It is no public call: the papers give its refusal no number.
pub fn day_count(year: u16, day: u16) -> Option<u32>
    ensures { result ≡ count_of year day }
{
    if !is_date(year, day) {
        return None;
    }
    let count = new_year(year) + day as u32 - 1;
    Some(count)
}

// The year 1900 + i and its entry in the table.
fn year_at(table: &[u32; YEARS], i: usize) -> TableYear
    requires { NewYears table.now × (first_year + i ≤ last_year) }
    ensures { (result.year ≡ first_year + i) × (result.start ≡ new_year result.year) }
{
    TableYear {
        year: FIRST_YEAR + i as u16,
        start: table[i],
    }
}

// The year that a day count falls in. The cycle's mean year gives the year sought or the one after it, and a comparison with the table's entry
// decides which. The last day of 3000 gives 3001, which has no entry.
fn year_of(count: u32) -> TableYear
    requires { count ≤ last_count }
    ensures { Within result.year count × (result.start ≡ new_year result.year) }
{
    let table = new_years();
    let years = (count * CYCLE_YEARS + EARLY) / CYCLE_DAYS;
    let i = years as usize;
    match table.get(i) {
        Some(start) if *start <= count => year_at(&table, i),
        _ => year_at(&table, i - 1),
    }
}

// The date of a day count. Refuses a count past the last day of 3000.
pub fn date_of(count: u32) -> Result<Date, Refusal>
    ensures { words_of result ≡ date_of count }
{
    if LAST_COUNT < count {
        return Err(Refusal::DayCount);
    }
    let found = year_of(count);
    let past = count - found.start;
    let day = past as u16 + 1;
    Ok(Date {
        year: found.year,
        day,
    })
}
